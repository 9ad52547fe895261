//! Lines are answered as they come.
ghost use Rattle.std.specs.Prelude.{◌≡◌, ◌<◌, ◌≤◌, ◌⊎◌, ℕ, ◌++◌, List, length, [], true, Ok, IfErr, IfNone, IfOk, OnOk, MatchResult};
ghost use Rattle.std.specs.Io.KnownBytes.{Appends, Consumes, IsAtEnd, Keeps};
ghost use Rattle.st_classes.specs.declared.refusals.Refusal.TheVariants.{BadCommand, TooLong};
ghost use Rattle.st_wire.specs.declared.replies.Reply.{Reply as ReplyOf};
ghost use Rattle.st_wire.specs.Replies.{line_of};
ghost use Rattle.st_wire.specs.Streams.{one_more};
ghost use Rattle.st_session.specs.Sessions.{Breaks, Replies, end_of, failures_after};
ghost use Rattle.st_session.specs.DeviceSessions.{FlushesAsOftenAsReads};
ghost use Rattle.st_session.specs.Cuts.{Holds, IsOpen};
ghost use Rattle.st_session.specs.Answering.{IsTold, Served, AnswersNext, AnswersWhole, AnswersLast, IsUnreadBy, TakesTurn};

use crate::handlers::{Handler, reply_to};
use crate::unread::{Cut, Unread};
use crate::writing::write_reply;
use st_classes::refusals::Refusal;
use st_wire::line_readers::LineReader;
use st_wire::replies::Reply;
use st_wire::streams::{Input, Output};
use std::alloc::Global;

/// The most bytes of a read.
pub(crate) const PIECE: usize = 8192;

/// Writes the refusal that ends the session as a reply. The answer is always an error: that refusal, or why it was not written
/// whole.
fn tell<O: Output>(alloc: Global, output: &mut O, last: Refusal) -> Result<bool, Refusal>
    requires { (last ≡ TooLong) ⊎ (last ≡ BadCommand) }
    ensures written { (part : List ℕ) × Appends (O.contents output.old) (O.contents output.new) part
        × IsTold last part result }
    ensures failures { O.failures output.new ≡ failures_after (end_of result) (O.failures output.old) }
    ensures unflushed { O.flushes output.new ≡ O.flushes output.old }
{
    match write_reply(alloc, output, &Reply::Refused(last)) {
        Ok(()) => Err(last),
        Err(refusal) => Err(refusal),
    }
}

/// Answers a line. The result is true, or why the reply was not written whole.
fn answer<H: Handler, O: Output>(
    handler: &mut H,
    reader: &mut LineReader,
    alloc: Global,
    output: &mut O,
    line: &[u8],
) -> Result<bool, Refusal>
    ensures written { (part : List ℕ) × Appends (O.contents output.old) (O.contents output.new) part
        × (r : ReplyOf) × Replies H.answers handler.old line.now r handler.new
        × MatchResult result (λ b. (b ≡ true) × (part ≡ line_of r)) (λ e. Breaks (line_of r) part e) }
    ensures failures { O.failures output.new ≡ failures_after (end_of result) (O.failures output.old) }
    ensures unflushed { O.flushes output.new ≡ O.flushes output.old }
{
    let reply = reply_to(handler, reader, alloc, line);
    match write_reply(alloc, output, &reply) {
        Ok(()) => Ok(true),
        Err(refusal) => Err(refusal),
    }
}

/// Answers what was cut off, and says whether it was a line.
fn serve<H: Handler, O: Output>(
    handler: &mut H,
    reader: &mut LineReader,
    alloc: Global,
    output: &mut O,
    cut: Cut,
) -> Result<bool, Refusal>
    ensures written { (part : List ℕ) × Appends (O.contents output.old) (O.contents output.new) part
        × Served (Replies H.answers) cut handler.old part handler.new result }
    ensures failures { O.failures output.new ≡ failures_after (end_of result) (O.failures output.old) }
    ensures unflushed { O.flushes output.new ≡ O.flushes output.old }
{
    match cut {
        Cut::Line(text) => answer(handler, reader, alloc, output, text.as_bytes()),
        Cut::Partial => Ok(false),
        Cut::TooLong => tell(alloc, output, Refusal::TooLong),
        Cut::NoText => tell(alloc, output, Refusal::BadCommand),
        Cut::Starved => Err(Refusal::NoMemory),
    }
}

/// Answers the next whole line, and says whether there was one.
fn answer_next<H: Handler, O: Output>(
    handler: &mut H,
    reader: &mut LineReader,
    alloc: Global,
    output: &mut O,
    unread: &mut Unread,
) -> Result<bool, Refusal>
    ensures written { (pending : List ℕ) → Holds pending unread.old
        → (part : List ℕ) × Appends (O.contents output.old) (O.contents output.new) part
        × AnswersNext (Replies H.answers) pending handler.old part handler.new unread.new result }
    ensures shorter { result ≡ Ok true → length unread.new.bytes.items < length unread.old.bytes.items }
    ensures failures { O.failures output.new ≡ failures_after (end_of result) (O.failures output.old) }
    ensures unflushed { O.flushes output.new ≡ O.flushes output.old }
{
    let cut = unread.take();
    serve(handler, reader, alloc, output, cut)
}

/// Answers all whole lines, and says how many there were.
fn answer_whole<H: Handler, O: Output>(
    handler: &mut H,
    reader: &mut LineReader,
    alloc: Global,
    output: &mut O,
    unread: &mut Unread,
) -> Result<u64, Refusal>
    ensures written { (pending : List ℕ) → Holds pending unread.old
        → (part : List ℕ) × Appends (O.contents output.old) (O.contents output.new) part
        × AnswersWhole (Replies H.answers) pending handler.old part handler.new unread.new result }
    ensures failures { O.failures output.new ≡ failures_after (end_of result) (O.failures output.old) }
    ensures unflushed { O.flushes output.new ≡ O.flushes output.old }
{
    // Each line consumes at least one byte.
    let most = unread.len();
    let mut count = 0;
    'lines: loop {
        match answer_next(handler, reader, alloc, output, unread) {
            Ok(true) => {
                prove!(count < most);
                count += 1;
            }
            Ok(false) => return Ok(count as u64),
            Err(refusal) => return Err(refusal),
        }
    }
}

/// Answers the last line, once the input has ended and no whole line is left. Says whether there was one.
pub(crate) fn answer_last<H: Handler, O: Output>(
    handler: &mut H,
    reader: &mut LineReader,
    alloc: Global,
    output: &mut O,
    unread: &mut Unread,
) -> Result<bool, Refusal>
    ensures written { (pending : List ℕ) → Holds pending unread.old → IsOpen pending
        → (part : List ℕ) × Appends (O.contents output.old) (O.contents output.new) part
        × AnswersLast (Replies H.answers) pending handler.old part handler.new result }
    ensures failures { O.failures output.new ≡ failures_after (end_of result) (O.failures output.old) }
    ensures unflushed { O.flushes output.new ≡ O.flushes output.old }
{
    let cut = unread.take_last();
    serve(handler, reader, alloc, output, cut)
}

/// Flushes the output, reads the next piece of the input and appends it to the unread bytes. The piece is empty only at the end.
fn read_piece<I: Input, O: Output>(
    input: &mut I,
    output: &mut O,
    unread: &mut Unread,
    buffer: &mut [u8],
) -> Result<usize, Refusal>
    requires { length buffer.old ≡ 8192 }
    ensures piece { (pending : List ℕ) → Holds pending unread.old → (piece : List ℕ) × (length piece ≤ 8192)
        × Consumes (I.remaining input.old) (I.remaining input.new) piece
        × MatchResult result (λ n. (length piece ≡ n) × Holds (pending ++ piece) unread.new) (λ _. piece ≡ []) }
    ensures end { IfOk result (λ n. n ≡ 0 → IsAtEnd (I.remaining input.new)) }
    ensures keeps { Keeps (O.contents output.old) (O.contents output.new) }
    ensures unfailed { OnOk result (I.failures input.new ≡ I.failures input.old) }
    ensures why { IfErr result (IsUnreadBy (I.failures input.old) (I.failures input.new)) }
    ensures read { OnOk result ((I.reads input.new ≡ one_more (I.reads input.old)) × (O.flushes output.new ≡ one_more (O.flushes output.old))) }
    ensures flushes { FlushesAsOftenAsReads 1 (I.reads input.old) (I.reads input.new) (O.flushes output.old) (O.flushes output.new) result }
    ensures failures { O.failures output.new ≡ failures_after (end_of result) (O.failures output.old) }
{
    let Ok(()) = unread.reserve(PIECE) else {
        return Err(Refusal::NoMemory);
    };
    let Ok(()) = output.flush() else {
        return Err(Refusal::WriteFault);
    };
    let Ok(count) = input.read(buffer) else {
        return Err(Refusal::ReadFault);
    };
    unread.push(&buffer[..count]);
    Ok(count)
}

/// Reads the next piece of the input and answers all whole lines. The answer is their number, or `None` at the end.
pub(crate) fn take_turn<H: Handler, I: Input, O: Output>(
    handler: &mut H,
    reader: &mut LineReader,
    alloc: Global,
    input: &mut I,
    output: &mut O,
    unread: &mut Unread,
    buffer: &mut [u8],
) -> Result<Option<u64>, Refusal>
    requires { length buffer.old ≡ 8192 }
    ensures written { (pending : List ℕ) → Holds pending unread.old
        → (piece : List ℕ) × (part : List ℕ) × (length piece ≤ 8192)
        × Consumes (I.remaining input.old) (I.remaining input.new) piece
        × Appends (O.contents output.old) (O.contents output.new) part
        × TakesTurn (Replies H.answers) (I.failures input.old) (I.failures input.new) pending piece handler.old part handler.new unread.new result }
    ensures end { IfOk result (λ n. IfNone n (IsAtEnd (I.remaining input.new))) }
    ensures read { OnOk result ((I.reads input.new ≡ one_more (I.reads input.old)) × (O.flushes output.new ≡ one_more (O.flushes output.old))) }
    ensures flushes { FlushesAsOftenAsReads 1 (I.reads input.old) (I.reads input.new) (O.flushes output.old) (O.flushes output.new) result }
    ensures failures { O.failures output.new ≡ failures_after (end_of result) (O.failures output.old) }
{
    match read_piece(input, output, unread, buffer) {
        Ok(0) => Ok(None),
        Ok(_) => match answer_whole(handler, reader, alloc, output, unread) {
            Ok(count) => Ok(Some(count)),
            Err(refusal) => Err(refusal),
        },
        Err(refusal) => Err(refusal),
    }
}
