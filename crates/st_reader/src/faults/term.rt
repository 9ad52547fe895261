//! The receiver or an argument of a message.
use crate::faults::checks::{Check, Faults};

/// An operand with the messages that it got, reduced to what later checks need.
#[derive(Clone, Copy)]
pub enum Term {
    /// A block that got no message. The offset is that of its bracket.
    Block(u16),
    /// `super` that got no message, at an offset.
    Super(u16),
    Other,
}

impl Term {
    /// Notes a block that gets a unary or binary message.
    pub fn receive(self, faults: &mut Faults) {
        if let Term::Block(offset) = self {
            faults.note(Check::Blocks, offset);
        }
    }

    /// Notes a `super` that gets no message.
    pub fn go_without_message(self, faults: &mut Faults) {
        if let Term::Super(offset) = self {
            faults.note(Check::Tokens, offset);
        }
    }

    /// Notes a block or a `super` that gets no message and is not the argument of a keyword.
    pub fn stand_alone(self, faults: &mut Faults) {
        self.receive(faults);
        self.go_without_message(faults);
    }
}
