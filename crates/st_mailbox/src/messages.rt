//! A message, and its sender.
use st_classes::seq::Seq;
use st_classes::values::{ActorId, Selector, Values};
use std::alloc::{AllocError, Global};

/// The sender of a message.
#[derive(Clone, Copy, PartialEq, Eq, Debug)]
pub enum Sender {
    /// A client by its number.
    Client(u16),
    /// An actor of the image.
    Actor(ActorId),
}

/// A message to an actor.
#[derive(Drop)]
pub struct Message {
    pub sender: Sender,
    /// The sender's own number for it.
    pub seq: u64,
    pub selector: Selector,
    pub args: Values,
}

impl Message {
    ghost use Rattle.std.specs.Prelude.{◌≡◌, IfOk};

    pub fn copy(&self, alloc: Global) -> Result<Message, AllocError>
        ensures { IfOk result (λ m. m ≡ self.now) }
    {
        Ok(Message {
            sender: self.sender,
            seq: self.seq,
            selector: self.selector,
            args: Seq::from_vec(self.args.as_slice().to_vec(alloc)?),
        })
    }
}
