//! How items of a history are told.
ghost use Rattle.std.specs.Prelude.{◌≡◌, ◌++◌, IfOk, drop, map};
ghost use Rattle.st_journal.specs.declared.entries.Entry.TheVariants as entry;
ghost use Rattle.st_journal.specs.Entries.{told, told_edit};

use crate::entries::Entry;
use st_classes::edits::Edit;
use st_classes::names::Names;
use st_classes::seq::Seq;
use st_classes::values::Selector;
use st_image::history::Item;
use std::alloc::{AllocError, Global};

/// A copy of a text.
pub(crate) fn copied(alloc: Global, text: &[u8]) -> Result<Seq<u8>, AllocError>
    ensures { IfOk result (λ copy. copy ≡ text.now) }
{
    Ok(Seq::from_vec(text.to_vec(alloc)?))
}

/// A copy of texts.
pub(crate) fn copied_texts(alloc: Global, texts: &[Seq<u8>]) -> Result<Seq<Seq<u8>>, AllocError>
    ensures { IfOk result (λ copy. copy ≡ texts.now) }
{
    let mut copy = Vec::with_capacity(alloc, texts.len())?;
    for text in texts {
        copy.push(copied(alloc, text.as_slice())?)?;
    }
    Ok(Seq::from_vec(copy))
}

/// The entry that tells an edit.
pub(crate) fn tell_edit(alloc: Global, edit: &Edit) -> Result<Entry, AllocError>
    ensures { IfOk result (λ entry. entry ≡ told_edit edit.now) }
{
    Ok(match edit {
        Edit::Define {
            name,
            parent,
            slots,
        } => Entry::Define {
            name: copied(alloc, name.as_slice())?,
            parent: *parent,
            slots: copied_texts(alloc, slots.as_slice())?,
        },
        Edit::Install { class, method } => Entry::Install {
            class: *class,
            source: copied(alloc, method.source())?,
        },
        Edit::Remove { class, selector } => Entry::Remove {
            class: *class,
            selector: *selector,
        },
        Edit::Reparent { class, parent } => Entry::Reparent {
            class: *class,
            parent: *parent,
        },
    })
}

/// The entry that tells an item.
pub(crate) fn tell(alloc: Global, item: &Item) -> Result<Entry, AllocError>
    ensures { IfOk result (λ entry. entry ≡ told item.now) }
{
    Ok(match item {
        Item::Edited(edit) => tell_edit(alloc, edit.edit())?,
        Item::Created(class) => Entry::Created(*class),
        Item::Posted { actor, message } => Entry::Posted {
            actor: *actor,
            message: message.copy(alloc)?,
        },
        Item::Closed(actor) => Entry::Closed(*actor),
        Item::Begun(actor) => Entry::Begun(*actor),
        Item::Ran { actor, steps } => Entry::Ran {
            actor: *actor,
            steps: *steps,
        },
    })
}

/// The entries that tell the names behind this many.
pub(crate) fn tell_names(alloc: Global, names: &Names, known: u32) -> Result<Vec<Entry>, AllocError>
    ensures { IfOk result (λ entries. entries.items ≡ map entry.Name (drop known names.now)) }
{
    names.known();
    let mut entries = Vec::new(alloc);
    for place in known..names.len() {
        let copy = copied(alloc, names.text(Selector(place as u16)))?;
        entries.push(Entry::Name(copy))?;
    }
    Ok(entries)
}

/// The entries that tell what happened since there were this many names: first the names, and then the items of a history.
pub fn tell_since(
    alloc: Global,
    names: &Names,
    known: u32,
    history: &[Item],
) -> Result<Vec<Entry>, AllocError>
    ensures { IfOk result (λ entries. entries.items ≡ map entry.Name (drop known names.now) ++ map told history.now) }
{
    let mut entries = tell_names(alloc, names, known)?;
    for item in history {
        entries.push(tell(alloc, item)?)?;
    }
    Ok(entries)
}
