//! The entries of a journal.
use st_classes::seq::Seq;
use st_classes::values::{ActorId, ClassId, Selector};
use st_mailbox::messages::Message;

/// One entry. Each but a name and a checkpoint tells an item of a history.
#[derive(Drop)]
pub enum Entry {
    /// A text that was interned. It is the next name.
    Name(Seq<u8>),
    Define {
        name: Seq<u8>,
        parent: ClassId,
        slots: Seq<Seq<u8>>,
    },
    /// A method, by its source. The names that it needs are told before.
    Install {
        class: ClassId,
        source: Seq<u8>,
    },
    Remove {
        class: ClassId,
        selector: Selector,
    },
    Reparent {
        class: ClassId,
        parent: ClassId,
    },
    Created(ClassId),
    /// A message of a client. What actors post is in the steps that they ran.
    Posted {
        actor: ActorId,
        message: Message,
    },
    Closed(ActorId),
    Begun(ActorId),
    /// The steps of one commit, at least one.
    Ran {
        actor: ActorId,
        steps: u32,
    },
    /// The world became the base, and the history was emptied.
    Checkpoint,
}
