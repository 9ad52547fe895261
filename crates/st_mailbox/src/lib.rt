//! Mailboxes: where an actor's messages wait (Agha, *Actors*, 1986).
//!
//! A mailbox is a list of messages, a capacity, and whether it is open. [`mailboxes::Mailbox`] says what every kind of mailbox
//! does. [`list_box::ListBox`] is a queue, and keeps its memory. [`ring_box::RingBox`] is a ring, and frees its memory once the
//! mailbox is closed and empty.
#![tactic(auto)]

pub mod list_box;
pub mod mailboxes;
pub mod messages;
pub mod ring_box;
