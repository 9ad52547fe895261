//! How an image does the entries of a journal again.
ghost use Rattle.std.specs.Prelude.{OnOk, IfErr};
ghost use Rattle.st_image.specs.Images.{world};
ghost use Rattle.st_image.specs.KeptEdits.{KeepsBeginning};
ghost use Rattle.st_journal.specs.Entries.{Leads, LeadsAll};
ghost use Rattle.st_journal.specs.Refused.{Refuses, StopsAt};

mod actors;
mod edits;
pub mod lines;
mod names;
pub mod replaying;
mod turns;

use crate::entries::Entry;
use crate::redo_error::{RedoError, RefusedEntry};
use crate::redoing::actors::{close, create, post};
use crate::redoing::edits::{define, install, remove, reparent};
use crate::redoing::names::name;
use crate::redoing::turns::{begin, checkpoint, run};
use st_guard::guard::Guard;
use st_image::image::Image;
use st_mailbox::mailboxes::Mailbox;
use st_turn::worker::Worker;
use std::alloc::Global;

/// Does an entry again, by the call for its kind. Afterwards the edits that the worker keeps, if any, still begin those of the image
/// before.
fn redo_by_kind<M: Mailbox, G: Guard>(
    alloc: Global,
    image: &mut Image<M>,
    worker: &mut Worker<G>,
    entry: &Entry,
) -> Result<(), RedoError>
    requires { KeepsBeginning (world image.old).edits worker.old }
    ensures ok { OnOk result (Leads image.old entry.now image.new) }
    ensures err { IfErr result (λ e. Refuses image.old entry.now e) }
    ensures kept { KeepsBeginning (world image.old).edits worker.new }
{
    match entry {
        Entry::Name(text) => name(alloc, image, text.as_slice()),
        Entry::Define {
            name,
            parent,
            slots,
        } => define(alloc, image, name.as_slice(), *parent, slots.as_slice()),
        Entry::Install { class, source } => install(alloc, image, *class, source.as_slice()),
        Entry::Remove { class, selector } => remove(alloc, image, *class, *selector),
        Entry::Reparent { class, parent } => reparent(alloc, image, *class, *parent),
        Entry::Created(class) => create(alloc, image, *class),
        Entry::Posted { actor, message } => post(alloc, image, *actor, message),
        Entry::Closed(actor) => close(image, *actor),
        Entry::Begun(actor) => begin(alloc, image, *actor),
        Entry::Ran { actor, steps } => run(alloc, image, worker, *actor, *steps),
        Entry::Checkpoint => checkpoint(alloc, image),
    }
}

/// Does an entry again, by a worker who keeps no edits but first ones of the image's. No lists of edits are compared.
pub(super) fn redo_next<M: Mailbox, G: Guard>(
    alloc: Global,
    image: &mut Image<M>,
    worker: &mut Worker<G>,
    entry: &Entry,
) -> Result<(), RedoError>
    requires { KeepsBeginning (world image.old).edits worker.old }
    ensures ok { OnOk result (Leads image.old entry.now image.new) }
    ensures err { IfErr result (λ e. Refuses image.old entry.now e) }
    ensures kept { OnOk result (KeepsBeginning (world image.new).edits worker.new) }
{
    image.known();
    let redone = redo_by_kind(alloc, image, worker, entry);
    image.known();
    redone
}

/// Does an entry again. The worker takes its steps; what it had found before is forgotten.
///
/// An entry is refused where the image refuses the call, by the first of the refusals that the call names, or `NoMemory`; and a name that
/// is one already, an install of names that were not told before it, a message of an actor, a beginning in an actor that is in a turn,
/// steps in one that is not, and steps that no commit leaves. These are steps beyond an act of the image or beyond the end of the turn,
/// and no steps at all. So every refusal is exact, but that of other steps: it says only that the actor is in a turn.
///
/// After an error the image may have names that it had not, and a method whose names were missing. It is to be dropped.
pub fn redo<M: Mailbox, G: Guard>(
    alloc: Global,
    image: &mut Image<M>,
    worker: &mut Worker<G>,
    entry: &Entry,
) -> Result<(), RedoError>
    ensures ok { OnOk result (Leads image.old entry.now image.new) }
    ensures err { IfErr result (λ e. Refuses image.old entry.now e) }
{
    worker.forget();
    redo_next(alloc, image, worker, entry)
}

/// Does entries again, one after the other. The answer is that all of them were done, or which one is refused, and why; those before it
/// were done then, and the image is to be dropped. What the worker had found before is forgotten.
pub fn redo_all<M: Mailbox, G: Guard>(
    alloc: Global,
    image: &mut Image<M>,
    worker: &mut Worker<G>,
    entries: &[Entry],
) -> Result<(), RefusedEntry>
    ensures ok { OnOk result (LeadsAll image.old entries.now image.new) }
    ensures err { IfErr result (λ r. StopsAt image.old entries.now r) }
{
    worker.forget();
    let mut place = 0;
    for entry in entries {
        match redo_next(alloc, image, worker, entry) {
            Ok(()) => place += 1,
            Err(error) => return Err(RefusedEntry { place, error }),
        }
        image.known();
    }
    Ok(())
}
