//! Lines: commands are read from them, and replies are written to them.
//!
//! A line is one JSON object. [`commands::read_command`] gives the command of a line, and [`replies::reply_text`] the line of a
//! reply. [`line_readers::LineReader`] reads many lines. [`queries`] has the commands that only look, [`told`] what their replies
//! hold, and [`text`] the texts in other replies. [`values`] reads a JSON value from the tokens of a text. Lines are read from and
//! written to the devices in [`streams`]. [`keys`] tells which keys a JSON object has.
#![tactic(auto)]

pub mod commands;
mod fields;
pub mod keys;
mod line_commands;
mod line_fields;
pub mod line_readers;
pub mod misses;
pub mod names;
mod numerals;
pub mod queries;
pub mod replies;
pub mod streams;
pub mod text;
mod tokens;
pub mod told;
pub mod values;
