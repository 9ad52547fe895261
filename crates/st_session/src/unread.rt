//! The bytes that were read and not yet answered.
ghost use Rattle.std.specs.Prelude.{◌≡◌, ◌≤◌, ℕ, List, [], ◌++◌, length, OnOk};
ghost use Rattle.st_session.specs.Cuts.{IsSaidBy};

use bytes::BytesMut;
use std::alloc::{AllocError, Global};
use std::io::ErrorKind;
use tokio_util::codec::{Decoder, LinesCodec, LinesCodecError};

/// The most bytes of a line, without its newline.
const LINE: usize = 8192;

/// What is at the front of the unread bytes.
#[derive(Drop)]
pub(crate) enum Cut {
    /// A line, without a carriage return at its end.
    Line(String),
    /// No whole line yet.
    Partial,
    /// A line with too many bytes.
    TooLong,
    /// A line that is not UTF-8.
    NoText,
    /// A line for which memory ran out.
    Starved,
}

/// What an error of the codec means.
fn cut_at(error: LinesCodecError) -> Cut
    ensures { IsSaidBy error result }
{
    match error {
        LinesCodecError::MaxLineLengthExceeded => Cut::TooLong,
        LinesCodecError::Io(error) if error.kind() == ErrorKind::InvalidData => Cut::NoText,
        LinesCodecError::Io(_) => Cut::Starved,
    }
}

/// The bytes that were read and not yet answered, and a codec that takes lines off their front. The codec remembers how far it has
/// searched for a newline.
#[derive(Drop)]
pub(crate) struct Unread {
    codec: LinesCodec,
    bytes: BytesMut,
}

impl Unread {
    ghost use Rattle.st_session.specs.Cuts.{Holds, IsOpen, IsShorter, Takes, TakesLast};

    /// No bytes.
    pub(crate) fn new(alloc: Global) -> Unread
        ensures { Holds [] result }
    {
        Unread {
            codec: LinesCodec::new_with_max_length(LINE),
            bytes: BytesMut::new(alloc),
        }
    }

    /// The number of bytes in the buffer.
    pub(crate) fn len(&self) -> usize
        ensures { result ≡ length self.now.bytes.items }
    {
        self.bytes.len()
    }

    /// Makes room for this many more bytes.
    pub(crate) fn reserve(&mut self, count: usize) -> Result<(), AllocError>
        ensures room { OnOk result (count ≤ self.new.bytes.spare) }
        ensures same { (pending : List ℕ) → Holds pending self.old → Holds pending self.new }
    {
        self.bytes.reserve(count)
    }

    /// Appends bytes. There must be room for them.
    pub(crate) fn push(&mut self, piece: &[u8])
        requires { length piece.now ≤ self.old.bytes.spare }
        ensures { (pending : List ℕ) → Holds pending self.old → Holds (pending ++ piece.now) self.new }
    {
        self.bytes.extend_reserved(piece);
    }

    /// Takes the first line off the bytes.
    pub(crate) fn take(&mut self) -> Cut
        ensures takes { (pending : List ℕ) → Holds pending self.old → Takes pending result self.new }
        ensures shorter { IsShorter result (length self.old.bytes.items) (length self.new.bytes.items) }
    {
        match self.codec.decode(&mut self.bytes) {
            Ok(Some(text)) => Cut::Line(text),
            Ok(None) => Cut::Partial,
            Err(error) => cut_at(error),
        }
    }

    /// Takes the last line, which has no newline. The input must have ended.
    pub(crate) fn take_last(&mut self) -> Cut
        ensures { (pending : List ℕ) → Holds pending self.old → IsOpen pending → TakesLast pending result }
    {
        match self.codec.decode_eof(&mut self.bytes) {
            Ok(Some(text)) => Cut::Line(text),
            Ok(None) => Cut::Partial,
            Err(error) => cut_at(error),
        }
    }
}
