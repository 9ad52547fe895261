//! Queries: what an image answers to a question about it. A query changes nothing, and its answer is a plain function of the image.
//!
//! What a query needs is copied from the image first ([`snapshots::see`]), and it is answered from that ([`answering::answer`]), which
//! takes longer. [`replying`] makes replies of the answers. Each query has a file of its own. Most answers are lists, which are told row by row, by number ([`listing`]).
#![tactic(auto)]

pub mod actor_snapshots;
mod actors;
pub mod answering;
mod bodies;
mod classes;
mod edits;
pub mod endings;
pub mod failed_turns;
mod failing;
pub mod hosts;
mod implementors;
pub mod inspecting;
pub mod laws;
mod listing;
mod messages;
mod methods;
mod offsets;
mod outcomes;
pub mod own_methods;
pub mod replying;
mod resolving;
mod senders;
mod sent;
pub mod snapshots;
mod sources;
mod status;
mod texts;
mod values;
mod versions;
