//! What happened is told, and done again on a new image.
use crate::images::{Image, lengths, new_image, new_worker, redone, redone_one, told_since};
use crate::story::{FIRST, SECOND, go_on, told_whole};
use st_classes::refusals::Refusal;
use st_classes::values::{ActorId, Value};
use st_journal::entries::Entry;
use st_journal::redo_error::{RedoError, RefusedEntry};
use st_mailbox::mailboxes::Mailbox;
use st_turn::body::Outcome;
use std::alloc::Global;
use std::test::*;

/// How many kernel names there are.
const KERNEL: u32 = 22;

fn outcome(image: &Image, actor: ActorId, turn: u64) -> Result<Outcome, Refusal> {
    image.outcome(actor, turn)
}

/// What is seen of an image from outside: edits, actors, the last number of the first actor, and what its mailbox has accepted and has
/// pending.
fn seen(image: &Image) -> (u32, u32, Option<u64>, Option<u64>) {
    (
        image.version().edits(),
        image.actors(),
        image.last_sent(FIRST),
        image.accepted(FIRST),
    )
}

fn is_open(image: &Image, actor: ActorId) -> Option<bool> {
    match image.mailbox(actor) {
        Some(mailbox) => Some(mailbox.is_open()),
        None => None,
    }
}

fn answered(value: Value) -> Result<Outcome, Refusal> {
    Ok(Outcome::Answer(value))
}

#[test]
fn a_whole_story(rt: HostRuntime) -> Result<(), Fail> {
    let first = told_whole(rt.alloc())?;
    assert_eq!(rt; lengths(&first), (25, 17));
    let entries = told_since(rt.alloc(), &first, KERNEL, 0)?;
    assert_eq!(rt; entries.len(), 20);
    let mut again = new_image(rt.alloc())?;
    let mut worker = new_worker(rt.alloc())?;
    assert!(rt; redone(rt.alloc(), &mut again, &mut worker, &entries).is_ok());
    assert_eq!(rt; lengths(&again), (25, 17));
    assert_eq!(rt; seen(&again), (7, 2, Some(1), Some(2)));
    assert_eq!(rt; outcome(&again, FIRST, 1), answered(Value::Bool(true)));
    assert_eq!(rt; outcome(&again, FIRST, 2), answered(Value::Int(7)));
    assert_eq!(rt;
        (is_open(&again, FIRST), is_open(&again, SECOND)),
        (Some(true), Some(false))
    );
    Ok(())
}

#[test]
fn behind_a_checkpoint(rt: HostRuntime) -> Result<(), Fail> {
    let mut first = told_whole(rt.alloc())?;
    let before = told_since(rt.alloc(), &first, KERNEL, 0)?;
    go_on(rt.alloc(), &mut first)?;
    let behind = told_since(rt.alloc(), &first, 25, 0)?;
    assert_eq!(rt; (before.len(), behind.len()), (20, 7));
    let mut again = new_image(rt.alloc())?;
    let mut worker = new_worker(rt.alloc())?;
    assert!(rt; redone(rt.alloc(), &mut again, &mut worker, &before).is_ok());
    assert_eq!(rt;
        redone_one(rt.alloc(), &mut again, &mut worker, &Entry::Checkpoint),
        Ok(())
    );
    assert!(rt; redone(rt.alloc(), &mut again, &mut worker, &behind).is_ok());
    assert_eq!(rt; lengths(&again), (25, 7));
    assert_eq!(rt; seen(&again), (7, 2, Some(2), Some(2)));
    // the turn that had ended at the checkpoint is turn 0, and those behind it are turns 1 and 2
    assert_eq!(rt; outcome(&again, FIRST, 0), answered(Value::Int(7)));
    assert_eq!(rt; outcome(&again, FIRST, 1), answered(Value::Bool(true)));
    assert_eq!(rt; outcome(&again, FIRST, 2), answered(Value::Int(7)));
    Ok(())
}

#[test]
fn a_method_whose_names_are_missing(rt: HostRuntime) -> Result<(), Fail> {
    let first = told_whole(rt.alloc())?;
    let entries = told_since(rt.alloc(), &first, 25, 0)?;
    let mut again = new_image(rt.alloc())?;
    let mut worker = new_worker(rt.alloc())?;
    let answer = redone(rt.alloc(), &mut again, &mut worker, &entries);
    assert_eq!(rt;
        answer,
        Err(RefusedEntry {
            place: 2,
            error: RedoError::MissingNames
        })
    );
    Ok(())
}
