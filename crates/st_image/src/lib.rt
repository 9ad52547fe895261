//! The image: actors, their mailboxes, the class table, and the history of all that happened.
//!
//! An [`image::Image`] is at all times the replay of its history: its state is what the items of the history lead to, one after the
//! other, and each item was allowed at its place.
#![tactic(auto)]

mod acting;
mod actor;
pub mod actor_part;
mod actors;
mod base;
mod changes;
mod clients;
pub mod counts;
pub mod dropping;
mod earlier_counts;
pub mod edit_text;
pub mod failures;
mod fitting;
pub mod history;
pub mod image;
pub mod loader;
pub mod recycled;
mod results;
mod sequence_numbers;
pub mod settings;
pub mod tallies;
