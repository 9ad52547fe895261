//! One image that threads share.
//!
//! The image lies under one lock, beside books of what has been done to it ([`shared::Shared`]). Callers post and edit, by one hold
//! of the lock a call ([`callers::Caller`]). Workers hold it once a quantum, and take the steps without it
//! ([`workers::worker_loop`]). Whoever looks sees an image that is the replay of its history, and that has at least what he has
//! done. In the end all hand back their shares, and what they have done together is what the history has ([`settling::settle`]).
#![tactic(auto)]

pub mod accounts;
mod answers;
pub mod books;
pub mod callers;
mod claim_slots;
pub(crate) mod crowding;
pub mod holds;
pub mod known_prefix;
pub mod naming;
pub(crate) mod past;
pub mod pool_claim;
pub mod pool_state;
pub mod pool_worker;
pub mod receipts;
pub mod settling;
pub mod shared;
pub mod shares;
mod signals;
pub mod totals;
pub(crate) mod waiting;
pub mod workers;
