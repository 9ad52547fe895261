//! Keyword messages, and which of them are compiled inline.
use crate::faults::checks::{Check, Faults};
use crate::faults::term::Term;
use crate::inlining::Inlining;
use st_classes::limits;

/// What the keywords so far say about compiling inline.
#[derive(Clone, Copy)]
pub enum Selector {
    /// `ifTrue:`
    IfTrue,
    /// `ifFalse:`
    IfFalse,
    /// `ifTrue:ifFalse:` and `ifFalse:ifTrue:`
    Either,
    /// `and:` and `or:`
    Logical,
    /// `whileTrue:` and `whileFalse:`
    Loop,
    /// A selector that is always sent, or a message of a cascade.
    Sent,
}

impl Selector {
    /// The selector of a first keyword.
    pub fn new(keyword: &[u8]) -> Self {
        match Inlining::of_one(keyword) {
            Some(Inlining::IfTrue) => Selector::IfTrue,
            Some(Inlining::IfFalse) => Selector::IfFalse,
            Some(Inlining::And | Inlining::Or) => Selector::Logical,
            Some(Inlining::WhileTrue | Inlining::WhileFalse) => Selector::Loop,
            Some(Inlining::IfTrueIfFalse | Inlining::IfFalseIfTrue) | None => Selector::Sent,
        }
    }

    fn followed_by(self, keyword: &[u8]) -> Self {
        match (self, Selector::new(keyword)) {
            (Selector::IfTrue, Selector::IfFalse) | (Selector::IfFalse, Selector::IfTrue) => {
                Selector::Either
            }
            _ => Selector::Sent,
        }
    }

    /// Whether a message whose arguments are blocks is compiled inline.
    fn is_inlined(self, receiver: Term) -> bool {
        match (self, receiver) {
            (Selector::Sent, _) => false,
            (Selector::Loop, Term::Block(_)) => true,
            (Selector::Loop, _) => false,
            (_, Term::Other) => true,
            (_, _) => false,
        }
    }
}

/// The sort of the arguments so far.
#[derive(Clone, Copy, PartialEq, Eq)]
enum Arguments {
    Blocks,
    Mixed,
}

/// A keyword message, up to its last keyword.
#[derive(Clone, Copy)]
pub struct Keywords {
    receiver: Term,
    selector: Selector,
    count: usize,
    arguments: Arguments,
    /// The offset of the first block among the receiver and the arguments.
    block: Option<u16>,
}

impl Keywords {
    /// A message with its first keyword.
    pub fn new(receiver: Term, selector: Selector) -> Self {
        Keywords {
            receiver,
            selector,
            count: 1,
            arguments: Arguments::Blocks,
            block: match receiver {
                Term::Block(offset) => Some(offset),
                Term::Super(_) | Term::Other => None,
            },
        }
    }

    /// Adds a further keyword, at an offset.
    pub fn add_keyword(&mut self, keyword: &[u8], offset: u16, faults: &mut Faults) {
        if self.count >= limits::ARGUMENTS {
            faults.note(Check::Sizes, offset);
        }
        self.count = self.count.saturating_add(1);
        self.selector = self.selector.followed_by(keyword);
    }

    /// Adds the argument of the last keyword.
    pub fn add_argument(&mut self, argument: Term, faults: &mut Faults) {
        argument.go_without_message(faults);
        match argument {
            Term::Block(offset) => self.block = Some(self.block.unwrap_or(offset)),
            Term::Super(_) | Term::Other => self.arguments = Arguments::Mixed,
        }
    }

    /// Makes the message part of a cascade.
    pub fn cascade(&mut self) {
        self.selector = Selector::Sent;
    }

    /// Notes the first block of a message that is sent, if it has one.
    pub fn end(&self, faults: &mut Faults) {
        if self.arguments == Arguments::Blocks && self.selector.is_inlined(self.receiver) {
            return;
        }
        if let Some(offset) = self.block {
            faults.note(Check::Blocks, offset);
        }
    }
}
