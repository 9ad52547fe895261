//! Image files: the text of an image, and the image of a text.
//!
//! A file is read in layers. [`reading`] turns a JSON value into [`texts`]. The loader of st_image takes the names and the edits, in
//! order. [`resolving`] finds what the texts of the actors mean, and the loader makes the image of them. [`images::image_of`] does all
//! this with a JSON value, and [`files::load`] with the bytes of an input. A text in the form in which images are saved is read by
//! [`streaming`] instead, actor by actor, in the same layers.
//!
//! To save, [`image_snapshots`] copies what an image is at one moment, and [`saving`] writes the text of its JSON value to an output, part by part.
//! [`laws`] says that a saved image loads again. [`forms`] says that the JSON value of an actor is read as this actor, and that of an edit
//! as its text.
//!
//! What reads and writes single parts ([`fields`], [`reading`], [`resolving`], [`saving`]) is public for st_journal, whose lines have them in
//! the same form.
#![tactic(auto)]

mod faults;
pub mod fields;
pub mod files;
pub mod forms;
pub mod image_snapshots;
pub mod images;
mod inputs;
pub mod laws;
mod loading;
mod ranges;
pub mod reading;
pub mod resolving;
pub mod saving;
mod streaming;
pub mod texts;
