//! A script: each line of the input is answered as it comes.
ghost use Rattle.std.specs.Prelude.{◌≡◌, ◌^◌, ℕ, List, []};
ghost use Rattle.std.specs.Io.KnownBytes.{Appends};
ghost use Rattle.st_wire.specs.Streams.{input_view};
ghost use Rattle.st_session.specs.Sessions.{Replies, end_of, failures_after};
ghost use Rattle.st_session.specs.DeviceSessions.{DeviceSession, FlushesAsOftenAsReads};
ghost use Rattle.st_script.specs.CommandReplies.{Serves};
ghost use Rattle.st_script.specs.Scripts.{RunsScript, Script};

use crate::images::Image;
use crate::keepers::{Keeper, Nobody};
use crate::quantum::Quantum;
use crate::runner::Runner;
use crate::serving::ImageHandler;
use crate::settings::ScriptSettings;
use st_classes::refusals::Refusal;
use st_session::sessions::session;
use st_wire::streams::{Input, Output};
use std::alloc::Global;

/// Writes a runner's reply to each line of an input.
fn answer_input<I: Input, O: Output, S: Keeper>(
    alloc: Global,
    input: &mut I,
    output: &mut O,
    quantum: Quantum,
    keeper: &S,
    runner: Runner,
) -> (Runner, Result<u64, Refusal>)
    ensures script { let before = input_view I.remaining I.failures I.reads input.old in
        let after = input_view I.remaining I.failures I.reads input.new in
        (written : List ℕ) × Appends (O.contents output.old) (O.contents output.new) written
        × DeviceSession (Replies (Serves quantum)) runner before after written result.0 result.1 }
    ensures flushes { FlushesAsOftenAsReads (2 ^ 32) (I.reads input.old) (I.reads input.new) (O.flushes output.old) (O.flushes output.new) result.1 }
    ensures failures { O.failures output.new ≡ failures_after (end_of result.1) (O.failures output.old) }
{
    let mut handler = ImageHandler {
        runner,
        quantum,
        keeper,
    };
    let result = session(&mut handler, alloc, input, output);
    (handler.runner, result)
}

/// Runs the commands of an input on an image as it is, with its settings and a new worker, and writes a reply to each, as
/// [`script_with`] does. `start` is when the program began, in nanoseconds since 1970.
pub fn run_script<I: Input, O: Output, S: Keeper>(
    alloc: Global,
    input: &mut I,
    output: &mut O,
    quantum: Quantum,
    start: u64,
    keeper: &S,
    image: Image,
) -> (Image, Result<u64, Refusal>)
    ensures script { let before = input_view I.remaining I.failures I.reads input.old in
        let after = input_view I.remaining I.failures I.reads input.new in
        (written : List ℕ) × Appends (O.contents output.old) (O.contents output.new) written
        × RunsScript quantum image before after written result.0 result.1 }
    ensures flushes { FlushesAsOftenAsReads (2 ^ 32) (I.reads input.old) (I.reads input.new) (O.flushes output.old) (O.flushes output.new) result.1 }
    ensures failures { O.failures output.new ≡ failures_after (end_of result.1) (O.failures output.old) }
{
    match Runner::new(alloc, start, image) {
        Ok(runner) => {
            let (runner, result) = answer_input(alloc, input, output, quantum, keeper, runner);
            (runner.into_image(), result)
        }
        Err(image) => (image, Err(Refusal::NoMemory)),
    }
}

/// Runs the commands of an input on an image. The reply to each line is written before any input is read beyond the piece with that
/// line. The keeper is asked to keep the image where that is to be saved.
///
/// Answers the image, and how many lines there were or why the session ended. BadArguments: a setting is out of its range; nothing
/// is read or written. NoMemory: there was none for the worker's caches, and nothing is read or written; or none for a line, a
/// reply or the next bytes, and the lines before are answered. TooLong or BadCommand: a line is over 8,192 bytes or not UTF-8; it
/// gets this refusal as its reply. ReadFault: a read failed, or 2^32 reads did not reach the end. WriteFault: a write or a flush
/// failed.
pub fn script_with<I: Input, O: Output, S: Keeper>(
    alloc: Global,
    input: &mut I,
    output: &mut O,
    settings: ScriptSettings,
    keeper: &S,
    mut image: Image,
) -> (Image, Result<u64, Refusal>)
    requires { image.history ≡ [] }
    ensures script { let before = input_view I.remaining I.failures I.reads input.old in
        let after = input_view I.remaining I.failures I.reads input.new in
        (written : List ℕ) × Appends (O.contents output.old) (O.contents output.new) written
        × Script settings image before after written result.0 result.1 }
    ensures flushes { FlushesAsOftenAsReads (2 ^ 32) (I.reads input.old) (I.reads input.new) (O.flushes output.old) (O.flushes output.new) result.1 }
    ensures failures { O.failures output.new ≡ failures_after (end_of result.1) (O.failures output.old) }
{
    let Some(quantum) = Quantum::new(settings.quantum) else {
        return (image, Err(Refusal::BadArguments));
    };
    if let Err(refusal) = image.set(settings.of_image()) {
        return (image, Err(refusal));
    }
    run_script(alloc, input, output, quantum, settings.start, keeper, image)
}

/// Runs the commands of an input on an image that nobody keeps, as [`script_with`] does: it cannot be saved.
pub fn script_on<I: Input, O: Output>(
    alloc: Global,
    input: &mut I,
    output: &mut O,
    settings: ScriptSettings,
    image: Image,
) -> (Image, Result<u64, Refusal>)
    requires { image.history ≡ [] }
    ensures script { let before = input_view I.remaining I.failures I.reads input.old in
        let after = input_view I.remaining I.failures I.reads input.new in
        (written : List ℕ) × Appends (O.contents output.old) (O.contents output.new) written
        × Script settings image before after written result.0 result.1 }
    ensures flushes { FlushesAsOftenAsReads (2 ^ 32) (I.reads input.old) (I.reads input.new) (O.flushes output.old) (O.flushes output.new) result.1 }
    ensures failures { O.failures output.new ≡ failures_after (end_of result.1) (O.failures output.old) }
{
    script_with(alloc, input, output, settings, &Nobody, image)
}
