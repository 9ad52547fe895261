//! Sessions over devices.
ghost use Rattle.std.specs.Prelude.{◌≡◌, ◌^◌, ℕ, List};
ghost use Rattle.std.specs.Io.KnownBytes.{Appends};
ghost use Rattle.st_wire.specs.Streams.{input_view};
ghost use Rattle.st_session.specs.Sessions.{Replies, end_of, failures_after};
ghost use Rattle.st_session.specs.DeviceSessions.{DeviceSession, FlushesAsOftenAsReads};

use crate::answering::{PIECE, answer_last, take_turn};
use crate::handlers::Handler;
use crate::unread::Unread;
use st_classes::refusals::Refusal;
use st_wire::line_readers::LineReader;
use st_wire::streams::{Input, Output};
use std::alloc::Global;

/// The most reads of a session.
const READS: u64 = 1 << 32;

/// Writes a reply to each line of an input to an output, and answers the number of lines. The output is flushed as often as the
/// input is read, or once more if the session ends with WriteFault. Two things are in no clause, and tested: the flush comes before
/// the read, and each line is answered before more bytes are read than came with its newline.
///
/// A session that ends early answers the reason. TooLong or BadCommand: a line is over 8,192 bytes or not UTF-8; it gets this reply
/// and is not handled. WriteFault: a write or a flush failed. ReadFault: a read failed, or 2^32 reads did not reach the end; the
/// whole lines that were read are answered. NoMemory: there was none for the text of a line or of a reply, or for the bytes to be
/// read next.
pub fn session<H: Handler, I: Input, O: Output>(
    handler: &mut H,
    alloc: Global,
    input: &mut I,
    output: &mut O,
) -> Result<u64, Refusal>
    ensures session { let before = input_view I.remaining I.failures I.reads input.old in
        let after = input_view I.remaining I.failures I.reads input.new in
        (written : List ℕ) × Appends (O.contents output.old) (O.contents output.new) written
        × DeviceSession (Replies H.answers) handler.old before after written handler.new result }
    ensures flushes { FlushesAsOftenAsReads (2 ^ 32) (I.reads input.old) (I.reads input.new) (O.flushes output.old) (O.flushes output.new) result }
    ensures failures { O.failures output.new ≡ failures_after (end_of result) (O.failures output.old) }
{
    let mut reader = LineReader::new(alloc);
    let mut unread = Unread::new(alloc);
    let mut buffer = [0u8; PIECE];
    let mut lines = 0;
    for reads in 0..READS {
        match take_turn(
            handler,
            &mut reader,
            alloc,
            input,
            output,
            &mut unread,
            &mut buffer,
        ) {
            Ok(Some(count)) => lines += count,
            Ok(None) => match answer_last(handler, &mut reader, alloc, output, &mut unread) {
                Ok(is_line) => return Ok(lines + u64::from(is_line)),
                Err(refusal) => return Err(refusal),
            },
            Err(refusal) => return Err(refusal),
        }
    }
    Err(Refusal::ReadFault)
}
