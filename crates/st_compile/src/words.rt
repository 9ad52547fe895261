//! Instructions whose names are not resolved yet.
ghost use Rattle.std.specs.Prelude.{◌≡◌};
ghost use Rattle.st_compile.specs.Equations.{to};
ghost use Rattle.st_compile.specs.DraftViews.{word_of, sent_text, sent_arguments};
ghost use Rattle.st_compile.specs.DraftGrowth.{branch_word, goes_up};

use st_classes::values::Value;
use st_reader::rules::alone::Alone;
use st_reader::trees::{Chain, Name};

/// The selector of a message.
#[derive(Clone, Copy)]
pub enum Sent<'t> {
    /// A unary or a binary selector.
    One(&'t Name, u8),
    /// Keywords, each with its argument.
    Keywords(&'t [(Name, Chain)]),
}

/// An instruction whose name is still a text. Jump distances count from the next instruction.
#[derive(Clone, Copy)]
pub enum Word<'t> {
    Literal(Value),
    Symbol(&'t Name),
    Receiver,
    Variable(&'t Name),
    Store(&'t Name),
    Drop,
    Repeat,
    Message(Sent<'t>),
    SuperMessage(Sent<'t>),
    /// Jumps forward by this many instructions.
    Jump(usize),
    /// Jumps back by this many instructions.
    Back(usize),
    JumpFalse(usize),
    JumpTrue(usize),
    Return,
}

impl<'t> Word<'t> {
    /// A message to a receiver, which may be `super`.
    pub fn sent(receiver: Alone, sent: Sent<'t>) -> Word<'t>
        ensures { word_of result ≡ to (goes_up receiver) (sent_text sent.entry) (sent_arguments sent.entry) }
    {
        match receiver {
            Alone::Super => Word::SuperMessage(sent),
            Alone::Block | Alone::Other => Word::Message(sent),
        }
    }
}

/// An instruction and the number of operands before it.
#[derive(Clone, Copy)]
pub struct Line<'t> {
    pub depth: usize,
    pub word: Word<'t>,
}

/// A conditional jump, named by the value on which it is taken.
#[derive(Clone, Copy)]
pub enum Branch {
    IfFalse,
    IfTrue,
}

impl Branch {
    /// The jump over this many instructions.
    pub fn over<'t>(self, distance: usize) -> Word<'t>
        ensures { word_of result ≡ branch_word self distance }
    {
        match self {
            Branch::IfFalse => Word::JumpFalse(distance),
            Branch::IfTrue => Word::JumpTrue(distance),
        }
    }
}

/// An arm of a conditional: a block, or a plain value in place of one.
#[derive(Clone, Copy)]
pub enum Arm<'t> {
    Block(&'t Chain),
    Plain(Value),
}
