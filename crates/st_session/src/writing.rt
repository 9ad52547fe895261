//! The lines of replies are written.
ghost use Rattle.std.specs.Prelude.{◌≡◌, ℕ, List, MatchResult};
ghost use Rattle.std.specs.Io.KnownBytes.{Appends};
ghost use Rattle.st_wire.specs.Replies.{line_of};
ghost use Rattle.st_session.specs.Sessions.{Breaks, end_of, failures_after};

use st_classes::refusals::Refusal;
use st_wire::replies::{Reply, reply_text};
use st_wire::streams::{Output, write_all};
use std::alloc::Global;

/// Writes the line of a reply. The refusal is `NoMemory` if there is none for the line, and then nothing is written. It is
/// `WriteFault` if a write fails, and then a proper prefix of the line is written.
pub fn write_reply<O: Output>(alloc: Global, output: &mut O, reply: &Reply) -> Result<(), Refusal>
    ensures written { (part : List ℕ) × Appends (O.contents output.old) (O.contents output.new) part
        × MatchResult result (λ _. part ≡ line_of reply.now) (λ e. Breaks (line_of reply.now) part e) }
    ensures failures { O.failures output.new ≡ failures_after (end_of result) (O.failures output.old) }
    ensures unflushed { O.flushes output.new ≡ O.flushes output.old }
{
    let Ok(text) = reply_text(alloc, reply) else {
        return Err(Refusal::NoMemory);
    };
    match write_all(output, &text) {
        Ok(()) => Ok(()),
        Err(_) => Err(Refusal::WriteFault),
    }
}
