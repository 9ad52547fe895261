//! An actor as plain data.
use st_classes::seq::Seq;
use st_classes::values::ClassId;
use st_mailbox::messages::Message;
use st_turn::body::Body;

/// An actor as plain data, as it is in an image or begins in one.
#[derive(Drop)]
pub struct ActorPart {
    pub class: ClassId,
    /// The most messages that its mailbox holds.
    pub capacity: u32,
    pub is_open: bool,
    pub body: Body,
    /// The number of the last message that it sent; 0 if it sent none.
    pub last: u64,
    /// The messages that it accepted and has not begun.
    pub pending: Seq<Message>,
}
