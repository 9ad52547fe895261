//! The entries of a journal, their lines, and how an image does them again.
//!
//! An image is the replay of its history, so to come back to it after a crash it is enough to do again what happened since the image
//! was saved. An [`entries::Entry`] tells one thing that happened: a name that was interned, an item of the history, or a checkpoint.
//! [`redoing::redo_all`] does entries again by the public calls of an image. What it accepts leads from one world to the next as the
//! replay of the items that were told, and [`laws::redone_is_what_was_told`] says that it comes to the very same world and names.
//!
//! A method is told by its source. Its names come first, so that they have the numbers that they had.
//!
//! As text an entry is a line: [`lines::line_of`] tells it, by the names and the class table of an image, and [`reading::read_entry`] reads
//! its JSON value by them, in two layers: its form, as [`texts`], and what that means. What is told is read as the very same entry
//! ([`laws::entries_are_read`]). [`redoing::lines::redo_text`] does the lines of a text again, and [`redoing::replaying::replay`] the
//! first of them.
#![tactic(auto)]

pub mod changes;
pub mod copying;
pub mod entries;
pub mod files;
pub mod headers;
pub mod laws;
pub mod lines;
pub mod reading;
pub mod redo_error;
pub mod redoing;
mod resolving;
pub mod telling;
pub mod texts;
