//! How an image does the lines of a journal's text again.
ghost use Rattle.std.specs.Prelude.{◌≡◌, ◌==◌, ◌<◌, ◌∷◌, List, length, position, IfErr, IfOk, OnOk};
ghost use Rattle.st_image.specs.Images.{world};
ghost use Rattle.st_image.specs.KeptEdits.{KeepsBeginning};
ghost use Rattle.st_journal.specs.declared.entries.Entry.{Entry};
ghost use Rattle.st_journal.specs.Entries.{Leads};
ghost use Rattle.st_journal.specs.EntryTexts.{ReadsAll, RefusesLine, SaysAt, StopsAtLine, lines_of};

use crate::entries::Entry;
use crate::reading::read_entry;
use crate::redo_error::{LineError, RedoError, RefusedLine};
use crate::redoing::redo_next;
use st_classes::refusals::Refusal;
use st_file::files::value_of_bytes;
use st_guard::guard::Guard;
use st_image::image::Image;
use st_mailbox::mailboxes::Mailbox;
use st_turn::worker::Worker;
use std::alloc::Global;

const NO_MEMORY: LineError = LineError::Redo(RedoError::Refused(Refusal::NoMemory));

/// The place of the first newline.
fn newline(text: &[u8]) -> Option<usize>
    ensures { result ≡ position (λ b. b == 10) text.now }
{
    text.iter().position(|byte| *byte == b'\n')
}

/// The first line of a text, and what stands behind its newline.
pub(super) fn first_line(text: &[u8]) -> (&[u8], &[u8])
    requires { 0 < length text.now }
    ensures line { lines_of text.now ≡ result.0.now ∷ lines_of result.1.now }
    ensures less { length result.1.now < length text.now }
{
    match newline(text) {
        Some(end) => (&text[..end], &text[end + 1..]),
        None => (text, &text[text.len()..]),
    }
}

/// The entry that a line says, by the names and the present class table of an image.
pub(super) fn entry_of<M: Mailbox>(
    alloc: Global,
    image: &Image<M>,
    line: &[u8],
) -> Result<Entry, LineError>
    ensures ok { IfOk result (λ e. SaysAt image.now line.now e) }
    ensures err { IfErr result (λ e. RefusesLine image.now line.now e) }
{
    let value = match value_of_bytes(alloc, line) {
        Ok(value) => value,
        Err(Refusal::NoMemory) => return Err(NO_MEMORY),
        Err(_) => return Err(LineError::NotJson),
    };
    match read_entry(alloc, image.names(), image.version(), &value) {
        Ok(entry) => Ok(entry),
        Err(Refusal::NoMemory) => Err(NO_MEMORY),
        Err(_) => Err(LineError::NotEntry),
    }
}

/// Does the entry that a line says again, by a worker who keeps no edits but first ones of the image's.
fn redo_line<M: Mailbox, G: Guard>(
    alloc: Global,
    image: &mut Image<M>,
    worker: &mut Worker<G>,
    line: &[u8],
) -> Result<(), LineError>
    requires { KeepsBeginning (world image.old).edits worker.old }
    ensures ok { OnOk result ((e : Entry) × SaysAt image.old line.now e × Leads image.old e image.new) }
    ensures err { IfErr result (λ e. RefusesLine image.old line.now e) }
    ensures kept { OnOk result (KeepsBeginning (world image.new).edits worker.new) }
{
    let entry = entry_of(alloc, image, line)?;
    match redo_next(alloc, image, worker, &entry) {
        Ok(()) => Ok(()),
        Err(error) => Err(LineError::Redo(error)),
    }
}

/// Does the entries that the lines of a text say again, one after the other. Each line is read at the names and the class table that the
/// image has by then.
///
/// The answer is that all of them were done, or which line is refused, and why: it is not JSON, or its value tells no entry there, or the
/// entry is refused as [`redo`](crate::redoing::redo) refuses it, or memory ran out. The lines before it were done then, and the image is
/// to be dropped. What the worker had found before is forgotten.
pub fn redo_text<M: Mailbox, G: Guard>(
    alloc: Global,
    image: &mut Image<M>,
    worker: &mut Worker<G>,
    text: &[u8],
) -> Result<(), RefusedLine>
    ensures ok { OnOk result ((es : List Entry) × ReadsAll image.old (lines_of text.now) es image.new) }
    ensures err { IfErr result (λ r. StopsAtLine image.old (lines_of text.now) r) }
{
    worker.forget();
    let mut place = 0;
    let mut rest = text;
    while !rest.is_empty() {
        let (line, behind) = first_line(rest);
        match redo_line(alloc, image, worker, line) {
            Ok(()) => place += 1,
            Err(error) => return Err(RefusedLine { place, error }),
        }
        image.known();
        rest = behind;
    }
    Ok(())
}
