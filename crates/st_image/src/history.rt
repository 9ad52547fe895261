//! The items of a history.
use st_classes::edits::SharedEdit;
use st_classes::values::{ActorId, ClassId};
use st_mailbox::messages::Message;

/// One thing that happened to an image.
#[derive(Drop)]
pub enum Item {
    /// An edit of the class table.
    Edited(SharedEdit),
    /// A new actor of a class.
    Created(ClassId),
    /// A message was accepted.
    Posted { actor: ActorId, message: Message },
    /// A mailbox was closed.
    Closed(ActorId),
    /// The next pending message became the actor's turn.
    Begun(ActorId),
    /// The actor took this many steps, at least one.
    Ran { actor: ActorId, steps: u32 },
}
