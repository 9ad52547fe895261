//! The bytes that a source may not contain.
use crate::characters;
use st_classes::selectors;

/// The region of a byte: code or comment.
#[derive(Clone, Copy)]
enum Region {
    Code,
    /// After a quote that opens a comment. The comment may never be closed.
    Comment,
}

/// Whether white space, a comment or a token can begin with a byte.
fn begins_piece(b: u8) -> bool {
    match b {
        b'"' | b'#' | b':' | b'(' | b')' | b'[' | b']' | b'^' | b'.' | b';' | b'|' => true,
        _ => {
            characters::is_white(b)
                || selectors::is_letter(b)
                || selectors::is_digit(b)
                || selectors::is_binary_character(b)
        }
    }
}

impl Region {
    fn allows(self, b: u8) -> bool {
        match self {
            Region::Code => begins_piece(b),
            Region::Comment => characters::is_character(b),
        }
    }

    /// The region after a quote.
    fn behind_quote(self) -> Self {
        match self {
            Region::Code => Region::Comment,
            Region::Comment => Region::Code,
        }
    }
}

/// The offset of the first byte that is not ASCII, is a control byte other than white space, or is outside comments and begins
/// neither white space nor a comment nor a token.
pub fn bad_character(source: &[u8]) -> Option<u16> {
    let mut region = Region::Code;
    let mut offset = 0u16;
    for b in source {
        if !region.allows(*b) {
            return Some(offset);
        }
        if *b == b'"' {
            region = region.behind_quote();
        }
        offset = offset.saturating_add(1);
    }
    None
}
