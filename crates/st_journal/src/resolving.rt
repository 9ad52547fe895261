//! Finds what the texts of entries mean, by names and a class table.
ghost use Rattle.st_classes.specs.Classes.{class_named};
ghost use Rattle.st_classes.specs.declared.refusals.ImagePlace.TheVariants.{Actors};
ghost use Rattle.st_file.specs.Answers.{Finds};
ghost use Rattle.st_file.specs.Meanings.{selector_of as selector_named};
ghost use Rattle.st_journal.specs.EntryMeanings as spec;

use crate::entries::Entry;
use crate::telling::{copied, copied_texts};
use crate::texts::EntryText;
use st_classes::names::Names;
use st_classes::refusals::Refusal;
use st_classes::seq::Seq;
use st_classes::version::Version;
use st_file::resolving::{Resolve, class_of, selector_of};
use st_image::edit_text::EditText;
use std::alloc::Global;

impl Resolve<Entry> for EntryText {
    ghost meaning = { spec.entry_meant };

    fn resolve(&self, alloc: Global, names: &Names, version: &Version) -> Result<Entry, Refusal> {
        match self {
            EntryText::Name(text) => Ok(Entry::Name(copied(alloc, text.as_slice())?)),
            EntryText::Edited(edit) => edited(alloc, names, version, edit),
            EntryText::Created(class) => Ok(Entry::Created(class_of(version, class.as_slice())?)),
            EntryText::Posted { actor, message } => Ok(Entry::Posted {
                actor: *actor,
                message: message.resolve(alloc, names, version)?,
            }),
            EntryText::Closed(actor) => Ok(Entry::Closed(*actor)),
            EntryText::Begun(actor) => Ok(Entry::Begun(*actor)),
            EntryText::Ran { actor, steps } => Ok(Entry::Ran {
                actor: *actor,
                steps: *steps,
            }),
            EntryText::Checkpoint => Ok(Entry::Checkpoint),
        }
    }
}

/// What an edit means.
fn edited(
    alloc: Global,
    names: &Names,
    version: &Version,
    edit: &EditText,
) -> Result<Entry, Refusal>
    ensures { Finds Actors (spec.edit_meant names.now version.now edit.now) result }
{
    match edit {
        EditText::Define {
            name,
            parent,
            slots,
        } => define(alloc, version, name, parent, slots),
        EditText::Install { class, source } => install(alloc, version, class, source),
        EditText::Remove { class, selector } => remove(names, version, class, selector),
        EditText::Reparent { class, parent } => reparent(version, class, parent),
    }
}

fn define(
    alloc: Global,
    version: &Version,
    name: &Seq<u8>,
    parent: &Seq<u8>,
    slots: &Seq<Seq<u8>>,
) -> Result<Entry, Refusal>
    ensures { Finds Actors (spec.define_with name.now slots.now (class_named version.now parent.now)) result }
{
    Ok(Entry::Define {
        parent: class_of(version, parent.as_slice())?,
        name: copied(alloc, name.as_slice())?,
        slots: copied_texts(alloc, slots.as_slice())?,
    })
}

fn install(
    alloc: Global,
    version: &Version,
    class: &Seq<u8>,
    source: &Seq<u8>,
) -> Result<Entry, Refusal>
    ensures { Finds Actors (spec.install_with source.now (class_named version.now class.now)) result }
{
    Ok(Entry::Install {
        class: class_of(version, class.as_slice())?,
        source: copied(alloc, source.as_slice())?,
    })
}

fn remove(
    names: &Names,
    version: &Version,
    class: &Seq<u8>,
    selector: &Seq<u8>,
) -> Result<Entry, Refusal>
    ensures { Finds Actors (spec.remove_with (class_named version.now class.now) (selector_named names.now selector.now)) result }
{
    Ok(Entry::Remove {
        class: class_of(version, class.as_slice())?,
        selector: selector_of(names, selector.as_slice())?,
    })
}

fn reparent(version: &Version, class: &Seq<u8>, parent: &Seq<u8>) -> Result<Entry, Refusal>
    ensures { Finds Actors (spec.reparent_with (class_named version.now class.now) (class_named version.now parent.now)) result }
{
    let moved = class_of(version, class.as_slice())?;
    match class_of(version, parent.as_slice()) {
        Ok(above) => Ok(Entry::Reparent {
            class: moved,
            parent: above,
        }),
        Err(refusal) => Err(refusal),
    }
}
