//! Entries that are not done again, behind a story.
use crate::images::{Image, Worker, new_worker, redone_one, text};
use crate::story::{COUNTER, FIRST, GO, SECOND, told_whole};
use st_classes::refusals::Refusal;
use st_classes::seq::Seq;
use st_classes::values::{ActorId, ClassId, Selector};
use st_journal::entries::Entry;
use st_journal::redo_error::RedoError;
use st_mailbox::messages::{Message, Sender};
use std::alloc::{AllocError, Global};
use std::test::*;

const NOBODY: ActorId = ActorId(2);

fn message(alloc: Global, sender: Sender, seq: u64, selector: Selector) -> Message {
    Message {
        sender,
        seq,
        selector,
        args: Seq::from_vec(Vec::new(alloc)),
    }
}

fn posted(alloc: Global, actor: ActorId, sender: Sender, seq: u64) -> Entry {
    Entry::Posted {
        actor,
        message: message(alloc, sender, seq, GO),
    }
}

fn ran(actor: ActorId, steps: u32) -> Entry {
    Entry::Ran { actor, steps }
}

fn name(alloc: Global, name: &str) -> Result<Entry, AllocError> {
    Ok(Entry::Name(text(alloc, name)?))
}

fn install(alloc: Global, class: ClassId, source: &str) -> Result<Entry, AllocError> {
    Ok(Entry::Install {
        class,
        source: text(alloc, source)?,
    })
}

/// An entry, and what it is refused for.
type Row = (Entry, RedoError);

fn of_names(alloc: Global, rows: &mut Vec<Row>) -> Result<(), AllocError> {
    let unknown = RedoError::Refused(Refusal::UnknownClass);
    let bad = RedoError::Refused(Refusal::BadName);
    rows.push((name(alloc, "tick")?, RedoError::KnownName))?;
    rows.push((name(alloc, "3")?, bad))?;
    rows.push((install(alloc, ClassId(10), "tick ^8")?, unknown))?;
    rows.push((install(alloc, COUNTER, "tock ^8")?, RedoError::MissingNames))?;
    Ok(())
}

fn of_posts(alloc: Global, rows: &mut Vec<Row>) -> Result<(), AllocError> {
    let client = Sender::Client(1);
    let old = RedoError::Refused(Refusal::Old { last: 1 });
    let nobody = RedoError::Refused(Refusal::UnknownActor);
    let closed = RedoError::Refused(Refusal::Closed);
    rows.push((posted(alloc, NOBODY, client, 2), nobody))?;
    rows.push((posted(alloc, FIRST, client, 1), old))?;
    rows.push((posted(alloc, SECOND, client, 2), closed))?;
    rows.push((
        posted(alloc, FIRST, Sender::Actor(FIRST), 2),
        RedoError::NotOfClient,
    ))?;
    Ok(())
}

fn refused(refusal: Refusal) -> RedoError {
    RedoError::Refused(refusal)
}

fn of_actors(rows: &mut Vec<Row>) -> Result<(), AllocError> {
    rows.push((Entry::Created(ClassId(10)), refused(Refusal::UnknownClass)))?;
    rows.push((Entry::Created(ClassId(1)), refused(Refusal::KernelClass)))?;
    rows.push((Entry::Closed(SECOND), refused(Refusal::Closed)))?;
    rows.push((Entry::Begun(NOBODY), refused(Refusal::UnknownActor)))?;
    rows.push((Entry::Begun(FIRST), refused(Refusal::NothingToDo)))?;
    rows.push((ran(FIRST, 1), RedoError::Idle))?;
    rows.push((ran(NOBODY, 1), RedoError::Idle))?;
    Ok(())
}

/// Entries, each with what it is refused for, by the rules that a reader finds in the docs of the calls.
fn lawless(alloc: Global) -> Result<Vec<Row>, AllocError> {
    let mut rows = Vec::new(alloc);
    of_names(alloc, &mut rows)?;
    of_posts(alloc, &mut rows)?;
    of_actors(&mut rows)?;
    Ok(rows)
}

#[test]
fn behind_a_story(rt: HostRuntime) -> Result<(), Fail> {
    for (entry, error) in lawless(rt.alloc())? {
        let mut image = told_whole(rt.alloc())?;
        let mut worker = new_worker(rt.alloc())?;
        assert_eq!(rt;
            redone_one(rt.alloc(), &mut image, &mut worker, &entry),
            Err(error)
        );
    }
    Ok(())
}

/// A turn of `go` takes four steps up to the post, and then one. So no commit leaves it with 3, or with 5, and none leaves no steps.
const STEPS: &[(u32, bool)] = &[
    (0, false),
    (3, false),
    (4, true),
    (5, false),
    (2, true),
    (9, false),
];

fn steps() -> &'static [(u32, bool)] {
    STEPS
}

#[test]
fn steps_that_no_commit_leaves(rt: HostRuntime) -> Result<(), Fail> {
    for (steps, is_done) in steps() {
        let mut image = told_whole(rt.alloc())?;
        let mut worker = new_worker(rt.alloc())?;
        let go = posted(rt.alloc(), FIRST, Sender::Client(1), 2);
        redone_one(rt.alloc(), &mut image, &mut worker, &go)?;
        redone_one(rt.alloc(), &mut image, &mut worker, &Entry::Begun(FIRST))?;
        let begun = redone_one(rt.alloc(), &mut image, &mut worker, &Entry::Begun(FIRST));
        assert_eq!(rt; begun, Err(RedoError::InTurn));
        let answer = redone_one(rt.alloc(), &mut image, &mut worker, &ran(FIRST, *steps));
        if *is_done {
            assert_eq!(rt; answer, Ok(()));
        } else {
            assert_eq!(rt; answer, Err(RedoError::OtherSteps));
        }
    }
    Ok(())
}
