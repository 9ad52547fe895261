//! Where the sends of a method stand in its source.
//!
//! A method keeps no offsets. They are read from its source again, whose draft has a line for each instruction of the code.
use crate::emit::Draft;
use crate::words::{Line, Sent, Word};
use st_classes::refusals::Refusal;
use st_reader::reader::read_method;
use std::alloc::{AllocError, Global};

impl<'t> Sent<'t> {
    /// Where the selector begins: of keywords, the first one.
    fn start(self) -> Option<u16> {
        match self {
            Sent::One(name, _) => Some(name.span.start),
            Sent::Keywords([(keyword, _), ..]) => Some(keyword.span.start),
            Sent::Keywords([]) => None,
        }
    }
}

/// Where the selector of a send begins, if a line is one.
fn sent_at(lines: &[Line<'_>], place: usize) -> Option<u16> {
    match lines.get(place)?.word {
        Word::Message(sent) | Word::SuperMessage(sent) => sent.start(),
        _ => None,
    }
}

/// Whether a jump leads to a line, which then may find what another line than the one before it left.
fn is_joined(lines: &[Line<'_>], place: usize) -> bool {
    lines.iter().enumerate().any(|(from, line)| match line.word {
        Word::Jump(distance) => place > from && place - from - 1 == distance,
        _ => false,
    })
}

/// Where the send begins that gave the value which a conditional jump tests.
fn tested_at(lines: &[Line<'_>], place: usize) -> Option<u16> {
    if is_joined(lines, place) {
        return None;
    }
    sent_at(lines, place.checked_sub(1)?)
}

/// The offset, in bytes of the source of a method, at which the selector of the send begins that is the instruction `pc` of its code:
/// its name, its operator, or its first keyword. Of a conditional jump it is that of the send which gave the value that is tested, if
/// that is the instruction just before it on every way to it.
///
/// `None` for every other instruction, behind the end of the code, and for a text that is no source of a method. That the offset is the
/// right one is tested, not proved.
pub fn place_of(alloc: Global, source: &[u8], pc: usize) -> Result<Option<u16>, AllocError> {
    let tree = match read_method(alloc, source) {
        Ok(tree) => tree,
        Err(Refusal::NoMemory) => return Err(AllocError),
        Err(_) => return Ok(None),
    };
    let draft = Draft::of_method(alloc, &tree)?;
    let lines = draft.lines.as_slice();
    Ok(match lines.get(pc).map(|line| line.word) {
        Some(Word::JumpFalse(_) | Word::JumpTrue(_)) => tested_at(lines, pc),
        _ => sent_at(lines, pc),
    })
}
