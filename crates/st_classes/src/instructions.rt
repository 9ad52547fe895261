//! The instructions of the stack machine.
use crate::values::{Selector, Value};

/// An instruction. Jump distances count from the next instruction.
#[derive(Clone, Copy, PartialEq, Eq, Debug)]
pub enum Instruction {
    /// Pushes a literal.
    PushLit(Value),
    /// Pushes the receiver.
    PushSelf,
    /// Pushes the actor's own reference.
    PushActor,
    /// Pushes an argument or a temporary, arguments first.
    PushTemp(u8),
    /// Pushes an instance variable of the receiver, inherited ones first.
    PushSlot(u8),
    /// Stores the top and leaves it there.
    StoreTemp(u8),
    /// Stores the top and leaves it there.
    StoreSlot(u8),
    /// Pops the top.
    Pop,
    /// Pushes the top again.
    Dup,
    /// Sends a message. The number is that of its arguments; the receiver is below them.
    Send(Selector, u8),
    /// Sends likewise, but the walk begins above the holder of the running method.
    SuperSend(Selector, u8),
    Jump(i16),
    /// Pops the top and jumps if it is false.
    JumpFalse(u16),
    /// Pops the top and jumps if it is true.
    JumpTrue(u16),
    /// Pops the top and the frame, and answers the top.
    Answer,
}
