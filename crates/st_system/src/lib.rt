//! One image and many workers, as events.
//!
//! A [`system::System`] has an image and workers, each with at most one claim. Whatever happens to it is a list of
//! [`events::Event`]s. Each event is one call of the image, or one thing that a worker does. After any of them the image is the
//! replay of its history.
#![tactic(auto)]

mod copies;
pub mod events;
pub mod laws;
pub mod system;
pub mod system_worker;
