//! Faults, which end a turn.

/// Why a turn ended without an answer.
#[derive(Clone, Copy, PartialEq, Eq, Debug)]
pub enum Fault {
    /// No method was found for the selector, and no method of the user's for `doesNotUnderstand:`.
    NotUnderstood,
    /// The result of arithmetic does not fit in 64 bits.
    Overflow,
    ZeroDivide,
    /// A kernel method got an argument of the wrong kind.
    BadArgument,
    /// A conditional jump met a value that is not a boolean.
    MustBeBoolean,
    /// A call with 128 frames open.
    StackOverflow,
    /// A new object in an actor that already has 1,024.
    HeapFull,
    /// A message to an actor has a local object as an argument.
    LocalArgument,
    /// A new actor in an image that already has 65,536.
    TooManyActors,
}
