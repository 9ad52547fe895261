//! Refusals. All layers share them.
ghost use Rattle.std.specs.Prelude.{◌≡◌};
ghost use Rattle.st_classes.specs.declared.refusals.Refusal.TheVariants.{NoMemory};

use std::alloc::AllocError;
use thiserror::Error;

/// What is wrong with a method's source.
#[derive(Clone, Copy, PartialEq, Eq, Debug)]
pub enum SourceFault {
    TooLarge,
    BadCharacter,
    BadToken,
    BadPattern,
    Nested,
    DuplicateName,
    ReadOnly,
    BlockEscapes,
    UnknownName,
}

/// What there is too much of.
#[derive(Clone, Copy, PartialEq, Eq, Debug)]
pub enum Limited {
    Classes,
    Slots,
    Edits,
    Names,
    Actors,
    Sessions,
}

/// The part of an image file that is wrong.
#[derive(Clone, Copy, PartialEq, Eq, Debug)]
pub enum ImagePlace {
    Json,
    Shape,
    Names,
    Edits,
    Actors,
    Senders,
}

/// Why a call is refused. A refused call changes nothing, unless its docs say otherwise. Names that it interned stay in the table.
#[derive(Clone, Copy, PartialEq, Eq, Debug, Error)]
pub enum Refusal {
    #[error("no such class")]
    UnknownClass,
    #[error("the class exists")]
    ClassExists,
    #[error("a kernel class")]
    KernelClass,
    #[error("a kernel method")]
    KernelMethod,
    #[error("not a name")]
    BadName,
    #[error("an instance variable is named twice or inherited")]
    SlotClash,
    #[error("the superclass chain is too long")]
    TooDeep,
    /// The method's source has no tree, or no code within the limits. The offset is that of the byte, from 0.
    #[error("bad source at {offset}")]
    BadSource { kind: SourceFault, offset: u32 },
    #[error("no such method")]
    NoSuchMethod,
    #[error("no such actor")]
    UnknownActor,
    #[error("the mailbox is closed")]
    Closed,
    #[error("the mailbox is full")]
    Full,
    /// The sender's number is not above its last one.
    #[error("a number that is not above {last}")]
    Old { last: u64 },
    #[error("bad arguments")]
    BadArguments,
    #[error("nothing to do")]
    NothingToDo,
    /// The class table has changed under a claim. The version is the image's current one.
    #[error("the class table is now at version {version}")]
    Stale { version: u32 },
    #[error("the actor has changed")]
    Changed,
    #[error("too many")]
    TooMany { what: Limited },
    #[error("not ended yet")]
    Pending,
    #[error("no longer kept")]
    Expired,
    #[error("not a command")]
    BadCommand,
    #[error("the line is too long")]
    TooLong,
    #[error("not an image")]
    BadImage { place: ImagePlace },
    #[error("the history is full")]
    HistoryFull,
    #[error("out of memory")]
    NoMemory,
    #[error("a read failed")]
    ReadFault,
    #[error("a write failed")]
    WriteFault,
    /// The new superclass is the class itself, or is below it.
    #[error("a class would be above itself")]
    Cycle,
    /// The old and the new superclass differ in their instance variables, inherited ones included.
    #[error("the superclasses differ in their instance variables")]
    SlotsDiffer,
}

impl From<AllocError> for Refusal {
    ghost from_gives = { λ _ refusal. refusal ≡ NoMemory };

    fn from(_: AllocError) -> Refusal {
        Refusal::NoMemory
    }
}
