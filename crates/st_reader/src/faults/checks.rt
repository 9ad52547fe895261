//! The checks of a source, and the first that fails.
ghost use Rattle.st_reader.specs.Faults.{IsBadSource, IsWithin};

use st_classes::refusals::{Refusal, SourceFault};

/// The checks, in the order in which they count.
#[derive(Clone, Copy, PartialEq, Eq, PartialOrd, Ord)]
pub enum Check {
    /// The source is not too long.
    Length,
    /// No byte is one that may not be at its place.
    Characters,
    /// A token begins wherever one must, the tokens after the pattern follow the grammar, and `super` gets a message.
    Tokens,
    /// The tokens begin with a pattern.
    Pattern,
    /// Brackets do not nest too deep.
    Nesting,
    /// No token is too long or out of range, and there are not too many keywords, arguments and temporaries.
    Sizes,
    /// Arguments and temporaries have different names, and none that is reserved.
    Names,
    /// What is assigned to can be changed.
    Assignments,
    /// Each block is part of a message that is compiled inline.
    Blocks,
}

impl Check {
    fn kind(self) -> SourceFault {
        match self {
            Check::Length | Check::Sizes => SourceFault::TooLarge,
            Check::Characters => SourceFault::BadCharacter,
            Check::Tokens => SourceFault::BadToken,
            Check::Pattern => SourceFault::BadPattern,
            Check::Nesting => SourceFault::Nested,
            Check::Names => SourceFault::DuplicateName,
            Check::Assignments => SourceFault::ReadOnly,
            Check::Blocks => SourceFault::BlockEscapes,
        }
    }
}

/// A check that fails, and the offset of the byte at which it fails. The least fault counts.
#[derive(Clone, Copy, PartialEq, Eq, PartialOrd, Ord)]
pub struct Fault {
    check: Check,
    offset: u16,
}

impl Fault {
    pub fn new(check: Check, offset: u16) -> Self {
        Fault { check, offset }
    }

    /// The refusal of a source of this length. All offsets are within it. The minimum of the two proves that here, so that the
    /// steps of the pass need no clause about it.
    pub fn refusal_within(self, length: usize) -> Refusal
        ensures source { IsBadSource result }
        ensures offset { IsWithin length result }
    {
        Refusal::BadSource {
            kind: self.check.kind(),
            offset: usize::from(self.offset).min(length) as u32,
        }
    }
}

/// The least of the faults found so far.
#[derive(Clone, Copy)]
pub struct Faults {
    first: Option<Fault>,
}

impl Faults {
    /// No fault so far.
    pub fn new() -> Self {
        Faults { first: None }
    }

    pub fn first(&self) -> Option<Fault> {
        self.first
    }

    pub fn note(&mut self, check: Check, offset: u16) {
        let fault = Fault::new(check, offset);
        self.first = Some(self.first.map_or(fault, |first| first.min(fault)));
    }
}
