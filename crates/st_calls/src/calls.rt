//! What can be asked of an image that changes it, and what is answered.
use st_classes::seq::Seq;
use st_classes::values::{ActorId, ClassId, Selector, Values};
use st_image::counts::Counts;

/// One call that changes an image.
#[derive(Drop)]
pub enum Call {
    /// A selector or a symbol gets a number.
    Intern(Seq<u8>),
    /// A class is defined.
    Define {
        name: Seq<u8>,
        parent: ClassId,
        slots: Seq<Seq<u8>>,
    },
    /// A method is installed.
    Install {
        class: ClassId,
        source: Seq<u8>,
    },
    /// A method is removed.
    Remove {
        class: ClassId,
        selector: Selector,
    },
    /// A class gets another superclass.
    Reparent {
        class: ClassId,
        parent: ClassId,
    },
    /// An actor is made.
    Create(ClassId),
    /// A client posts a message, with its own number for it.
    Post {
        sender: u16,
        seq: u64,
        actor: ActorId,
        selector: Selector,
        args: Values,
    },
    /// A mailbox is closed.
    Close(ActorId),
    /// The present world becomes the image's base, and the history is emptied.
    Checkpoint,
}

/// What a call answers that was not refused.
#[derive(Clone, Copy, PartialEq, Eq, Debug)]
pub enum Answer {
    /// The number of the text.
    Interned(Selector),
    /// The number of edits, with the new one.
    Version(u32),
    /// The number of the new actor.
    Created(ActorId),
    /// The number of the message's turn: its place, from 1, among those pending at the last checkpoint and those accepted since.
    Position(u64),
    /// It is closed.
    Closed,
    /// How many posts and steps the image has counted.
    Counted(Counts),
}
