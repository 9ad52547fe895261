//! A server: sessions over a socket, each with a thread and a caller of a pool, and the journal of what happens to their image.
//!
//! [`sockets::serve_image`] lets clients in, and answers each line of a session by [`attending`], in holds of the image's lock. What has
//! happened is told and written beside by [`recording`].
#![tactic(auto)]

pub mod accept_policy;
mod accepting;
pub mod admission;
pub mod attending;
mod awaiting;
mod polling;
mod progress;
mod readings;
pub mod recording;
pub mod sockets;
pub mod starts;
mod waits;
