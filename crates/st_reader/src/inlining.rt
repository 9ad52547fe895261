//! The messages that are inlined if their arguments are blocks.
ghost use Rattle.std.specs.Prelude.{◌≡◌, ◌∷◌, []};
ghost use Rattle.st_reader.specs.Inlining.{inlining_of_one, inlining_of_two, is_loop};

/// An inlined message.
#[derive(Clone, Copy, PartialEq, Eq, Debug)]
pub enum Inlining {
    IfTrue,
    IfFalse,
    IfTrueIfFalse,
    IfFalseIfTrue,
    And,
    Or,
    WhileTrue,
    WhileFalse,
}

impl Inlining {
    /// The inlined message with one keyword.
    pub fn of_one(text: &[u8]) -> Option<Inlining>
        ensures { result ≡ inlining_of_one text.now }
    {
        if text == b"ifTrue:".as_slice() {
            Some(Inlining::IfTrue)
        } else if text == b"ifFalse:".as_slice() {
            Some(Inlining::IfFalse)
        } else if text == b"and:".as_slice() {
            Some(Inlining::And)
        } else if text == b"or:".as_slice() {
            Some(Inlining::Or)
        } else if text == b"whileTrue:".as_slice() {
            Some(Inlining::WhileTrue)
        } else if text == b"whileFalse:".as_slice() {
            Some(Inlining::WhileFalse)
        } else {
            None
        }
    }

    /// The inlined message with two keywords.
    pub fn of_two(text: &[u8], next: &[u8]) -> Option<Inlining>
        ensures { result ≡ inlining_of_two text.now next.now }
    {
        if text == b"ifTrue:".as_slice() && next == b"ifFalse:".as_slice() {
            Some(Inlining::IfTrueIfFalse)
        } else if text == b"ifFalse:".as_slice() && next == b"ifTrue:".as_slice() {
            Some(Inlining::IfFalseIfTrue)
        } else {
            None
        }
    }

    /// Whether the receiver must be a block, too.
    pub fn is_loop(self) -> bool
        ensures { result ≡ is_loop self }
    {
        matches!(self, Inlining::WhileTrue | Inlining::WhileFalse)
    }
}
