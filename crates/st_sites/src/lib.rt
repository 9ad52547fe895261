//! Call sites: polymorphic inline caches of at most four entries (Hölzle, Chambers and Ungar 1991).
//!
//! A [`site::Site`] keeps the targets that were found for the receiver classes it has met. Its contracts say exactly what `probe`
//! answers, and how `fill` and `clear_dead` change it. No call allocates.
#![tactic(auto)]

mod entries;
pub mod entry;
pub mod site;
