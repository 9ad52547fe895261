//! An image comes back to what it was, by the lines of its journal.
ghost use Rattle.std.specs.Prelude.{List, IfOk};
ghost use Rattle.st_journal.specs.declared.entries.Entry.{Entry};
ghost use Rattle.st_journal.specs.EntryTexts.{ReadsAll, lines_of};
ghost use Rattle.st_journal.specs.Replays.{Replays};

use crate::images::Image;
use crate::runner::new_worker;
use st_classes::refusals::Refusal;
use st_journal::redo_error::{LineError, RedoError, RefusedLine};
use st_journal::redoing::lines::redo_text;
use st_journal::redoing::replaying::{ReplayError, Until, replay};
use std::alloc::Global;

/// There was no memory for a worker.
const NO_WORKER: RefusedLine = RefusedLine {
    place: 0,
    error: LineError::Redo(RedoError::Refused(Refusal::NoMemory)),
};

/// Does what the lines of a text tell again on an image, by a worker with new caches. The answer is the image to which that leads, or
/// which line is refused, and why.
pub fn recover(alloc: Global, mut image: Image, text: &[u8]) -> Result<Image, RefusedLine>
    ensures { IfOk result (λ j. (es : List Entry) × ReadsAll image (lines_of text.now) es j) }
{
    let Ok(mut worker) = new_worker(alloc) else {
        drop(image);
        return Err(NO_WORKER);
    };
    match redo_text(alloc, &mut image, &mut worker, text) {
        Ok(()) => Ok(image),
        Err(refused) => {
            drop(image);
            Err(refused)
        }
    }
}

/// Does the beginning of a text again on an image, by a worker with new caches. The answer is the image to which that leads, and how many
/// lines were done whole.
pub fn go_back_to(
    alloc: Global,
    mut image: Image,
    text: &[u8],
    until: Until,
) -> Result<(Image, usize), ReplayError>
    ensures { IfOk result (λ r. Replays image (lines_of text.now) r.1 r.0) }
{
    let Ok(mut worker) = new_worker(alloc) else {
        drop(image);
        return Err(ReplayError::Redo(RedoError::Refused(Refusal::NoMemory)));
    };
    match replay(alloc, &mut image, &mut worker, text, until) {
        Ok(done) => Ok((image, done)),
        Err(error) => {
            drop(image);
            Err(error)
        }
    }
}
