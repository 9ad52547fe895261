//! The files of an image on a disk: its own, the new one that takes its place, its journals, and the file of a server's socket.
//!
//! [`image_files`] opens an image's file and loads it, [`new_files`] holds the file beside it, writes a moment's image there and moves it
//! into the old one's place. [`journals`] keeps the journal that goes on from the image, over [`journal_files`]. A refusal says in words
//! what it was about ([`failures`]), and [`stamps`] tell whether another process has changed a file. Of what a disk does with the files
//! no clause speaks: that is tried on the built program.
#![tactic(auto)]

mod digests;
pub mod failures;
pub mod image_files;
pub mod journal_files;
pub mod journals;
pub mod new_files;
pub mod socket_files;
pub mod stamps;
