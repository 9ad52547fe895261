//! Claims that come too late, since the actor's body was changed or a selector that they used was edited; and claims that survive edits.
use crate::calls::*;
use st_classes::kernel::{OBJECT, SMALL_INTEGER};
use st_classes::refusals::Refusal;
use st_classes::values::ClassId;
use st_image::settings::Settings;
use st_script::images::Image;
use st_turn::claim::Claim;
use std::alloc::Global;
use std::collections::VecDeque;
use std::test::*;

const A: ClassId = ClassId(8);

/// A class that is defined below.
const OTHER: ClassId = ClassId(9);

/// What happens to an image.
enum Event {
    /// It is a new one with an actor to which a message was sent, after three edits. No claim is out.
    Anew,
    /// A new worker takes so many steps on a claim of the actor, or fewer if no step of the actor's own is next.
    Take(u32),
    /// Of the claims that are out the first one is committed, and the answer is this.
    Commit(Result<u32, Refusal>),
    /// So many steps are taken and committed.
    Advance(u32),
    Install(ClassId, &'static str),
    /// The method of numbers is removed.
    Remove,
    /// A class is defined under Object.
    Define,
    /// That class gets the superclass again that it has.
    Reparent,
    Checkpoint,
}

const CHANGED: Event = Event::Commit(Err(Refusal::Changed));

const STALE: Event = Event::Commit(Err(Refusal::Stale { version: 4 }));

const STALE_BY_OTHER: Event = Event::Commit(Err(Refusal::Stale { version: 5 }));

const EVENTS: &[Event] = &[
    // Of two claims on one body one counts.
    Event::Anew,
    Event::Take(3),
    Event::Take(3),
    Event::Commit(Ok(3)),
    CHANGED,
    // An install of what a claim sent makes it stale; one of what nobody sends does not; one for messages that are not understood does, and
    // one for the message that it has dispatched.
    Event::Anew,
    Event::Take(3),
    Event::Install(SMALL_INTEGER, "tag ^2"),
    STALE,
    Event::Anew,
    Event::Take(3),
    Event::Install(A, "bump ^0"),
    Event::Commit(Ok(3)),
    Event::Anew,
    Event::Take(3),
    Event::Install(A, "doesNotUnderstand: s ^s"),
    STALE,
    Event::Anew,
    Event::Take(3),
    Event::Install(A, "go ^4"),
    STALE,
    // Behind its last send the turn of `go` has one step, its answer. A claim of that one used nothing, and survives each of these.
    Event::Anew,
    Event::Advance(7),
    Event::Take(8),
    Event::Install(SMALL_INTEGER, "tag ^2"),
    Event::Commit(Ok(1)),
    Event::Anew,
    Event::Advance(7),
    Event::Take(8),
    Event::Install(A, "bump ^0"),
    Event::Commit(Ok(1)),
    Event::Anew,
    Event::Advance(7),
    Event::Take(8),
    Event::Install(A, "doesNotUnderstand: s ^s"),
    Event::Commit(Ok(1)),
    Event::Anew,
    Event::Advance(7),
    Event::Take(8),
    Event::Install(A, "go ^4"),
    Event::Commit(Ok(1)),
    // A removal makes a claim stale, and a definition does not.
    Event::Anew,
    Event::Take(3),
    Event::Remove,
    STALE,
    Event::Take(1),
    Event::Define,
    Event::Commit(Ok(1)),
    // A reparent of an unrelated class makes stale what used a selector, and nothing else.
    Event::Anew,
    Event::Define,
    Event::Take(3),
    Event::Reparent,
    STALE_BY_OTHER,
    Event::Anew,
    Event::Define,
    Event::Take(1),
    Event::Reparent,
    STALE_BY_OTHER,
    Event::Anew,
    Event::Define,
    Event::Take(0),
    Event::Reparent,
    Event::Commit(Ok(0)),
    Event::Anew,
    Event::Define,
    Event::Advance(7),
    Event::Take(8),
    Event::Reparent,
    Event::Commit(Ok(1)),
    // No step uses nothing, and a super send its selector.
    Event::Anew,
    Event::Take(0),
    Event::Install(A, "go ^4"),
    Event::Commit(Ok(0)),
    Event::Install(A, "go ^super above"),
    Event::Install(OBJECT, "above ^1"),
    Event::Take(3),
    Event::Install(OBJECT, "above ^2"),
    Event::Commit(Err(Refusal::Stale { version: 7 })),
    // A checkpoint is nothing to claims: behind it, between them, and before an edit.
    Event::Anew,
    Event::Take(3),
    Event::Take(3),
    Event::Checkpoint,
    Event::Commit(Ok(3)),
    CHANGED,
    Event::Anew,
    Event::Take(3),
    Event::Take(3),
    Event::Commit(Ok(3)),
    Event::Checkpoint,
    CHANGED,
    Event::Anew,
    Event::Take(3),
    Event::Checkpoint,
    Event::Install(SMALL_INTEGER, "tag ^2"),
    STALE,
];

/// The table behind a function without a contract, so that the proof of a test carries none of it.
fn events() -> &'static [Event] {
    EVENTS
}

/// An image with an actor to which a message was sent, after three edits.
fn asked(alloc: Global) -> Result<Box<Image>, Refusal> {
    let mut image = new_image(alloc, Settings::DEFAULT)?;
    define(alloc, &mut image, b"A", OBJECT)?;
    install(alloc, &mut image, A, "go ^3 tag + 1")?;
    install(alloc, &mut image, SMALL_INTEGER, "tag ^1")?;
    create(alloc, &mut image, A)?;
    let go = intern(alloc, &mut image, b"go")?;
    post(alloc, &mut image, go)?;
    Ok(image)
}

/// A claim is the last of those that are out.
fn take(
    alloc: Global,
    image: &mut Image,
    claims: &mut VecDeque<Box<Claim>>,
    most: u32,
) -> Result<bool, Refusal> {
    let claim = claim_of(alloc, image, most)?;
    match claims.push_back(claim) {
        Ok(()) => Ok(true),
        Err(_) => Err(Refusal::NoMemory),
    }
}

/// Whether the first of the claims that are out is committed with this answer.
fn is_committed(
    alloc: Global,
    image: &mut Image,
    claims: &mut VecDeque<Box<Claim>>,
    wanted: Result<u32, Refusal>,
) -> bool {
    match claims.pop_front() {
        Some(claim) => commit(alloc, image, claim) == wanted,
        None => false,
    }
}

/// Whether an event happens, and has the answer that it names.
fn happens(
    alloc: Global,
    image: &mut Box<Image>,
    claims: &mut VecDeque<Box<Claim>>,
    event: &Event,
) -> Result<bool, Refusal> {
    match event {
        Event::Anew => {
            *image = asked(alloc)?;
            Ok(claims.is_empty())
        }
        Event::Take(most) => take(alloc, image, claims, *most),
        Event::Commit(wanted) => Ok(is_committed(alloc, image, claims, *wanted)),
        Event::Advance(most) => Ok(advance(alloc, image, *most)? == *most),
        Event::Install(class, source) => Ok(install(alloc, image, *class, source)? > 3),
        Event::Remove => {
            let tag = intern(alloc, image, b"tag")?;
            Ok(remove(alloc, image, SMALL_INTEGER, tag)? == 4)
        }
        Event::Define => Ok(define(alloc, image, b"D", OBJECT)? > 3),
        Event::Reparent => Ok(reparent(alloc, image, OTHER, OBJECT)? == 5),
        Event::Checkpoint => Ok(checkpoint(alloc, image).is_ok()),
    }
}

#[test]
fn claims_and_edits(rt: HostRuntime) -> Result<(), Fail> {
    let alloc = rt.alloc();
    let mut image = asked(alloc)?;
    let mut claims = VecDeque::new(alloc);
    for (place, event) in events().iter().enumerate() {
        assert!(rt; happens(alloc, &mut image, &mut claims, event)?, "{place}");
    }
    Ok(())
}
