//! Guards, and the caches of one worker: call sites and a lookup cache, which save walks up the superclass chain.
//!
//! A [`guard::Guard`] tells which entries of caches are still right after later edits. [`caches::Caches`] answer what a walk finds,
//! and say how they found it. By an invariant of their type, their entries are valid at the list of edits that they keep.
#![tactic(auto)]

mod cache_parts;
pub mod caches;
pub mod global_guard;
pub mod guard;
pub mod how;
mod invalidation;
mod lookup_cache;
mod site_numbers;
mod site_table;
pub mod switch_guard;
pub mod walking;
