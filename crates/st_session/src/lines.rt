//! The lines of a text.
ghost use Rattle.st_session.specs.Lines.{CutsAtNewlines};

/// A text is cut at its newlines: no part contains a newline, and the parts joined by newlines are the text.
pub fn cutting()
    ensures { CutsAtNewlines }
{}
