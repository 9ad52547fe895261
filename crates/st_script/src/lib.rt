//! The program over an image: commands and their replies, and a script of lines.
//!
//! [`scripts::script_on`] answers each line of its input with one line, as it comes. The answer is the text of the reply to the
//! line's command, asked of the image as the line before left it. [`asking`] has the command's call, made by whoever holds the image: a
//! script here, and a session of a server.
#![tactic(auto)]

pub mod asking;
mod calls_of;
pub mod checking;
pub mod images;
pub mod journal_batch;
pub mod keepers;
pub mod laws;
mod posting;
pub mod quantum;
pub mod recovering;
mod replacing;
mod resolving;
pub mod runner;
pub mod scripts;
mod serving;
pub mod settings;
mod statistics;
