//! Entries that are done again while memory is refused: a new image, asked again, comes to the same. Memory is refused where a test runs
//! with an allocation that fails, as `tools/refused-growth` has it for each in turn.
use crate::images::{Image, lengths, new_image, new_worker, redone, told_since};
use crate::story::{go_on, told_whole};
use st_classes::refusals::Refusal;
use st_journal::entries::Entry;
use st_journal::redo_error::RedoError;
use std::alloc::Global;
use std::test::*;

/// How long the names and the history of a new image are that does entries again. The only refusal is one for want of memory.
fn redone_lengths(alloc: Global, entries: &[Entry]) -> Result<(u32, usize), Refusal> {
    let mut image = new_image(alloc)?;
    let mut worker = new_worker(alloc)?;
    match redone(alloc, &mut image, &mut worker, entries) {
        Ok(()) => Ok(lengths(&image)),
        Err(refused) => match refused.error {
            RedoError::Refused(refusal) => Err(refusal),
            _ => Err(Refusal::Changed),
        },
    }
}

/// The same, asked for again where there was no memory.
fn redone_lengths_again(alloc: Global, entries: &[Entry]) -> Result<(u32, usize), Refusal> {
    match redone_lengths(alloc, entries) {
        Err(Refusal::NoMemory) => redone_lengths(alloc, entries),
        first => first,
    }
}

/// The entries of an image, told again where there was no memory.
fn told_again(alloc: Global, image: &Image) -> Result<Vec<Entry>, Refusal> {
    match told_since(alloc, image, 22, 0) {
        Ok(entries) => Ok(entries),
        Err(_) => Ok(told_since(alloc, image, 22, 0)?),
    }
}

#[test]
fn a_story(rt: HostRuntime) -> Result<(), Fail> {
    let image = told_whole(rt.alloc())?;
    let entries = told_again(rt.alloc(), &image)?;
    assert_eq!(rt; redone_lengths_again(rt.alloc(), &entries)?, (25, 17));
    Ok(())
}

#[test]
fn a_story_with_a_checkpoint(rt: HostRuntime) -> Result<(), Fail> {
    let mut image = told_whole(rt.alloc())?;
    let mut entries = told_again(rt.alloc(), &image)?;
    go_on(rt.alloc(), &mut image)?;
    let behind = told_since(rt.alloc(), &image, 25, 0)?;
    entries.push(Entry::Checkpoint)?;
    for entry in behind {
        entries.push(entry)?;
    }
    assert_eq!(rt; redone_lengths_again(rt.alloc(), &entries)?, (25, 7));
    Ok(())
}
