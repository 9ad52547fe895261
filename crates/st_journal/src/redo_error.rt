//! Why an entry is not done again.
use st_classes::refusals::Refusal;
use thiserror::Error;

/// Why an entry is not done again.
#[derive(Clone, Copy, PartialEq, Eq, Debug, Error)]
pub enum RedoError {
    /// The image refuses it, or memory ran out.
    #[error("the image refuses the entry")]
    Refused(Refusal),
    /// The name is one already.
    #[error("the name is one already")]
    KnownName,
    /// The method needs names that were not told before it.
    #[error("the method needs names that were not told before")]
    MissingNames,
    /// The message is one of an actor. Such a message is in the steps that the actor ran.
    #[error("the message is not one of a client")]
    NotOfClient,
    /// A message begins in an actor that is in a turn.
    #[error("the actor is in a turn")]
    InTurn,
    /// Steps of an actor that is in no turn, or is not there.
    #[error("the actor is in no turn")]
    Idle,
    /// The actor cannot take just so many steps, as one commit leaves them.
    #[error("the actor takes other steps")]
    OtherSteps,
}

/// An entry that is not done again.
#[derive(Clone, Copy, PartialEq, Eq, Debug)]
pub struct RefusedEntry {
    /// How many entries were done before it.
    pub place: usize,
    pub error: RedoError,
}

/// Why a line is not done again.
#[derive(Clone, Copy, PartialEq, Eq, Debug, Error)]
pub enum LineError {
    /// The line is not JSON.
    #[error("the line is not JSON")]
    NotJson,
    /// Its JSON value does not have the form of an entry, or a class or a selector in it is not there.
    #[error("the line is not an entry")]
    NotEntry,
    /// The entry is not done again, or memory ran out.
    #[error("the entry is not done again")]
    Redo(RedoError),
}

/// A line that is not done again.
#[derive(Clone, Copy, PartialEq, Eq, Debug)]
pub struct RefusedLine {
    /// How many lines were done before it.
    pub place: usize,
    pub error: LineError,
}
