//! Bodies of actors, and their steps.
//!
//! A [`body::Body`] is what one actor is while it runs: its objects, and its phase. [`plain::step_plain`] takes one step
//! by the plain walk of a class table, the one that `specs/Steps.antt` defines, and a body that fits a table still fits it.
//!
//! A [`claim::Claim`] is a row of such steps that was taken apart from the image, and is sound by its type. A [`worker::Worker`] takes
//! the steps of claims: it looks messages up in its caches, and the claim tells how each send was found. A claim
//! [survives](claim::Claim::survives) the edits of selectors that its steps did not use: [`laws`] has the law.
#![tactic(auto)]

pub mod acts;
pub mod arithmetic;
pub mod body;
pub mod claim;
mod finder;
pub mod frame;
mod general;
pub mod ghost_list;
pub mod kernel_methods;
pub mod laws;
pub mod lookup;
pub mod plain;
mod quick;
pub mod reruns;
pub mod sends;
pub mod stack;
pub mod sums;
pub mod tally;
mod value_lists;
pub mod worker;
