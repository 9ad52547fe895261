//! Saves an image as the text of a file.
ghost use Rattle.std.specs.Prelude.{◌≡◌, ◌≤◌, ℕ, List, length, false, IfErr, IfOk, MatchResult, OnOk};
ghost use Rattle.std.specs.Io.KnownBytes.{Appends};
ghost use mathlib.Core.List.{IsPrefix};
ghost use Rattle.serde_json.specs.Data.{Data, depth};
ghost use Rattle.serde_json.specs.View.{view};
ghost use Rattle.serde_json.specs.Written.{has_float};
ghost use Rattle.st_classes.specs.declared.refusals.Refusal.TheVariants.{WriteFault};
ghost use Rattle.st_wire.specs.Streams.{one_more};
ghost use Rattle.st_file.specs.Saving.{IsDocument, IsLineOf, IsWrittenAs, Saves, failures_after, value_line};
ghost use Rattle.st_file.specs.ImageSnapshots.{snapshot_of};

mod bodies;
pub(crate) mod images;
pub mod lists;
pub mod tables;
pub mod text_writer;
pub mod values;

use crate::files::{value_of_bytes, without_newline};
use crate::image_snapshots::ImageSnapshot;
use crate::saving::text_writer::TextWriter;
use serde_json::Value;
use st_classes::refusals::Refusal;
use st_image::image::Image;
use st_mailbox::mailboxes::Mailbox;
use st_wire::streams::{MemoryOutput, Output, WriteFailed};
use std::alloc::{AllocError, Global};

/// Writes the line of a moment's document and flushes the output. The answer is how many bytes it has.
fn write_snapshot<O: Output>(
    alloc: Global,
    snapshot: &ImageSnapshot,
    output: &mut O,
) -> Result<u64, WriteFailed>
    ensures written { (v : Data) × IsWrittenAs v snapshot.now × IsLineOf v (value_line v)
        × ((part : List ℕ) × Appends (O.contents output.old) (O.contents output.new) part
        × MatchResult result (λ n. (part ≡ value_line v) × (n ≡ length part)) (λ _. IsPrefix part (value_line v))) }
    ensures failures { MatchResult result (λ _. O.failures output.new ≡ O.failures output.old) (λ _. O.failures output.new ≡ one_more (O.failures output.old)) }
    ensures flushed { OnOk result (O.flushes output.new ≡ one_more (O.flushes output.old)) }
{
    let mut writer = TextWriter::new(alloc);
    snapshot.write(&mut writer, output);
    writer.put(output, "\n");
    writer.finish(output)
}

/// The document of an image: the JSON value that describes it. It has all names after the kernel's, the class table, the actors with
/// their pending messages and the phases of their turns, the clients, and the counts of posts and steps. Fails only if memory runs out.
pub fn image_value<M: Mailbox>(alloc: Global, image: &Image<M>) -> Result<Value, AllocError>
    ensures document { IfOk result (λ v. IsDocument (view v) (snapshot_of image.now)) }
    ensures shallow { IfOk result (λ v. depth (view v) ≤ 9) }
    ensures whole { IfOk result (λ v. has_float (view v) ≡ false) }
{
    let snapshot = ImageSnapshot::of(alloc, image)?;
    let mut output = MemoryOutput::new(alloc);
    match write_snapshot(alloc, &snapshot, &mut output) {
        Ok(_) => {}
        Err(_) => return Err(AllocError),
    }
    match value_of_bytes(alloc, without_newline(output.as_slice())) {
        Ok(value) => Ok(value),
        Err(_) => Err(AllocError),
    }
}

/// Writes the text of the file of an image at a moment and flushes the output. The text is the line of the image's document, and is read
/// as that document again. It is written part by part, in little memory. The answer is how many bytes it has.
///
/// Fails with `WriteFault` if the output failed. Then a prefix of the text is written, which is all of it if only the flush failed.
pub fn save_snapshot<O: Output>(
    alloc: Global,
    snapshot: &ImageSnapshot,
    output: &mut O,
) -> Result<u64, Refusal>
    ensures saved { (written : List ℕ) × Appends (O.contents output.old) (O.contents output.new) written × Saves snapshot.now written result × IfOk result (λ n. n ≡ length written) }
    ensures fault { IfErr result (λ e. e ≡ WriteFault) }
    ensures failures { O.failures output.new ≡ failures_after result (O.failures output.old) }
    ensures flushed { OnOk result (O.flushes output.new ≡ one_more (O.flushes output.old)) }
{
    match write_snapshot(alloc, snapshot, output) {
        Ok(count) => Ok(count),
        Err(_) => Err(Refusal::WriteFault),
    }
}

/// Writes the text of an image's file, as [`save_snapshot`] does for what the image is now. Fails with `NoMemory` before anything is
/// written, or with `WriteFault` as there.
pub fn save<M: Mailbox, O: Output>(
    alloc: Global,
    image: &Image<M>,
    output: &mut O,
) -> Result<(), Refusal>
    ensures saved { (written : List ℕ) × Appends (O.contents output.old) (O.contents output.new) written × Saves (snapshot_of image.now) written result }
    ensures failures { O.failures output.new ≡ failures_after result (O.failures output.old) }
    ensures flushed { OnOk result (O.flushes output.new ≡ one_more (O.flushes output.old)) }
{
    let snapshot = ImageSnapshot::of(alloc, image)?;
    match save_snapshot(alloc, &snapshot, output) {
        Ok(_) => Ok(()),
        Err(refusal) => Err(refusal),
    }
}
