//! A call that changes an image, as data, and the one function that makes it.
//!
//! After each call the image goes on in the new one, and it has counted as much more as the answer tells ([`applying::apply`]). The
//! same is said of what is done with claims ([`claims`]).
#![tactic(auto)]

pub mod applying;
pub mod calls;
pub mod claims;
pub mod holders;
