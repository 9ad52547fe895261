//! Sessions: each line of an input is a command, and gets a reply as it comes.
//!
//! [`sessions::session`] reads an input, and writes the reply of a [`handlers::Handler`] to the command of each line to an output.
//! What is written depends on the bytes alone, not on how reads split them. [`lines`] says what a line is.
#![tactic(auto)]

mod answering;
pub mod handlers;
pub mod lines;
pub mod sessions;
mod unread;
pub mod writing;
