//! The command `check`, which describes an image file.
ghost use Rattle.std.specs.Prelude.{◌≡◌, ℕ, List, Result, Ok, Err};
ghost use Rattle.std.specs.Io.KnownBytes.{Appends};
ghost use Rattle.st_classes.specs.declared.refusals.Refusal.{Refusal as RefusalOf};
ghost use Rattle.st_image.specs.Images.{ImageView};
ghost use Rattle.st_wire.specs.Streams.{input_view};
ghost use Rattle.st_session.specs.Sessions.{end_of, failures_after};
ghost use Rattle.st_file.specs.Files.{LoadsFile};
ghost use Rattle.st_script.specs.Checks as spec;
ghost use Rattle.st_script.specs.Checks.{Told, checked};

use crate::images::{Image, Mailbox};
use st_classes::refusals::Refusal;
use st_file::files::load;
use st_session::writing::write_reply;
use st_wire::replies::Reply;
use st_wire::streams::{Input, Output};
use std::alloc::Global;

/// The reply that describes the image of a file, or says why the file has none.
fn reply_of(loaded: &Result<Image, Refusal>) -> Reply
    ensures { result ≡ checked loaded.now }
{
    match loaded {
        Ok(image) => Reply::Checked {
            actors: image.actors(),
            classes: image.version().classes(),
            edits: image.version().edits(),
        },
        Err(refusal) => Reply::Refused(*refusal),
    }
}

/// The exit status: 0 if the file has an image, else 1.
fn status_of(loaded: &Result<Image, Refusal>) -> u8
    ensures { result ≡ spec.status_of loaded.now }
{
    match loaded {
        Ok(_) => 0,
        Err(_) => 1,
    }
}

/// Loads an image and writes a line to an output: how many actors, classes and edits the image has, including the kernel's classes,
/// or why the file was refused. The answer is the exit status: 0, or 1 if the file was refused.
///
/// Refusals: `NoMemory`, and then nothing is written; `WriteFault` if the line is not written whole.
pub fn check_on<I: Input, O: Output>(
    alloc: Global,
    input: &mut I,
    output: &mut O,
) -> Result<u8, Refusal>
    ensures told { let before = input_view I.remaining I.failures I.reads input.old in
        let after = input_view I.remaining I.failures I.reads input.new in
        (loaded : Result ImageView RefusalOf) × LoadsFile before after loaded
        × ((written : List ℕ) × Appends (O.contents output.old) (O.contents output.new) written
        × Told loaded written result) }
    ensures failures { O.failures output.new ≡ failures_after (end_of result) (O.failures output.old) }
{
    let loaded: Result<Image, Refusal> = load::<Mailbox, I>(alloc, input);
    let status = status_of(&loaded);
    let reply = reply_of(&loaded);
    let written = write_reply(alloc, output, &reply);
    drop((loaded, reply));
    match written {
        Ok(()) => Ok(status),
        Err(refusal) => Err(refusal),
    }
}
