//! Events of a system of two workers, and what they answer: scenes in tables, which one function plays.
use crate::lists::text;
use crate::workers::{Answered, apply, history, image, system_of};
use st_calls::calls::{Answer as Called, Call};
use st_classes::kernel::{OBJECT, SMALL_INTEGER};
use st_classes::refusals::Refusal;
use st_classes::seq::Seq;
use st_classes::values::{ActorId, ClassId, Selector};
use st_guard::caches::Caches;
use st_guard::global_guard::GlobalGuard;
use st_guard::guard::Guard;
use st_image::history::Item;
use st_image::image::Image;
use st_image::settings::Settings;
use st_mailbox::list_box::ListBox;
use st_mailbox::mailboxes::Mailbox;
use st_system::events::{Answer, Event};
use st_system::system::System;
use st_turn::body::Stop;
use st_turn::worker::Worker;
use std::alloc::{AllocError, Global};
use std::test::*;

/// A system of two workers.
type TwoWorkers = System<ListBox, GlobalGuard>;

/// The only actor.
const FIRST: ActorId = ActorId(0);

/// The first class of the user's.
const A: ClassId = ClassId(8);

/// The first name of the user's.
const GO: Selector = Selector(22);

/// A number that is no class's.
const NOWHERE: ClassId = ClassId(40);

/// What a scene does: an event of a worker, of the only actor; or another event.
#[derive(Clone, Copy)]
pub(crate) enum Work {
    Checkout(u32),
    Local(u32),
    Commit(u32),
    Release(u32),
    Forget(u32),
    /// Defines class A.
    Define,
    Install(ClassId, &'static str),
    Reparent(ClassId, ClassId),
    /// Interns `go`.
    Intern,
    /// Makes an actor of class A.
    Create,
    /// Posts `go` as client 1, with this number.
    Post(u64),
}

/// What is done, each with what it has to answer.
pub(crate) type Rows = &'static [(Work, Answered)];

/// How a history ends.
#[derive(Clone, Copy, PartialEq, Eq)]
pub(crate) enum End {
    /// With the beginning of a turn.
    Begun,
    /// With the beginning of a turn, and this many steps of it in one item.
    Ran(u32),
    /// In another way.
    Other,
}

/// The most items of the history, what is done, how many items there are then, and how the history ends.
pub(crate) type Scene = (u32, &'static [Rows], usize, End);

/// The most items of a history where nothing is said.
pub(crate) const MOST: u32 = 1_000_000;

pub(crate) const DONE: Answered = Ok(Answer::Done);

/// A step was taken.
pub(crate) const STEPPED: Answered = Ok(Answer::Stopped(Stop::More));

const UNKNOWN: Answered = Err(Refusal::BadArguments);

const NOTHING: Answered = Err(Refusal::NothingToDo);

const STALE: Answered = Err(Refusal::Stale { version: 4 });

const FULL: Answered = Err(Refusal::HistoryFull);

pub(crate) const THREE: Answered = Ok(Answer::Steps(3));

const NONE: Answered = Ok(Answer::Steps(0));

const FOURTH: Answered = Ok(Answer::Called(Called::Version(4)));

/// A class A with a method `go` that sends `tag` to a number, the number's method, and an actor of A to which `go` was sent. The
/// history has five items then.
pub(crate) const POSTED: Rows = &[
    (Work::Define, Ok(Answer::Called(Called::Version(1)))),
    (
        Work::Install(A, "go ^3 tag + 1"),
        Ok(Answer::Called(Called::Version(2))),
    ),
    (
        Work::Install(SMALL_INTEGER, "tag ^1"),
        Ok(Answer::Called(Called::Version(3))),
    ),
    (Work::Intern, Ok(Answer::Called(Called::Interned(GO)))),
    (Work::Create, Ok(Answer::Called(Called::Created(FIRST)))),
    (Work::Post(1), Ok(Answer::Called(Called::Position(1)))),
];

/// Events of workers that are not there, or that have no claim or one too many.
const MISPLACED: Rows = &[
    (Work::Checkout(2), UNKNOWN),
    (Work::Local(2), UNKNOWN),
    (Work::Commit(2), UNKNOWN),
    (Work::Release(2), UNKNOWN),
    (Work::Forget(2), UNKNOWN),
    (Work::Local(1), NOTHING),
    (Work::Commit(1), NOTHING),
    (Work::Release(1), NOTHING),
    (Work::Checkout(0), DONE),
    (Work::Checkout(0), UNKNOWN),
    (Work::Local(1), NOTHING),
    (Work::Local(0), STEPPED),
];

/// Two workers take the same three steps of an actor, each on a claim of its own, and one of them with emptied caches. The first
/// to commit has taken them.
const TWO_CLAIMS: Rows = &[
    (Work::Checkout(0), DONE),
    (Work::Checkout(1), DONE),
    (Work::Local(0), STEPPED),
    (Work::Local(0), STEPPED),
    (Work::Local(0), STEPPED),
    (Work::Forget(1), DONE),
    (Work::Local(1), STEPPED),
    (Work::Local(1), STEPPED),
    (Work::Local(1), STEPPED),
    (Work::Commit(0), THREE),
    (Work::Commit(1), Err(Refusal::Changed)),
];

/// A claim of no steps, of an actor whose next step is its own.
const NO_STEPS: Rows = &[
    (Work::Checkout(0), DONE),
    (Work::Commit(0), NONE),
    (Work::Local(0), NOTHING),
];

/// A claim of three steps.
pub(crate) const THREE_STEPS: Rows = &[
    (Work::Checkout(0), DONE),
    (Work::Local(0), STEPPED),
    (Work::Local(0), STEPPED),
    (Work::Local(0), STEPPED),
];

/// An edit of a message that the steps sent.
pub(crate) const TAG_EDITED: Rows = &[(Work::Install(SMALL_INTEGER, "tag ^2"), FOURTH)];

/// An edit of the message for messages that are not understood.
const UNHEARD_EDITED: Rows = &[(Work::Install(A, "doesNotUnderstand: s ^s"), FOURTH)];

/// An edit of a message that nobody sends.
pub(crate) const OTHER_EDITED: Rows = &[(Work::Install(A, "bump ^0"), FOURTH)];

/// Class A gets the superclass again that it has: that touches every selector.
const MOVED: Rows = &[(Work::Reparent(A, OBJECT), FOURTH)];

/// A claim that does not survive an edit is refused, and spent.
pub(crate) const STALE_CLAIM: Rows = &[(Work::Commit(0), STALE), (Work::Commit(0), NOTHING)];

/// One that survives it is committed.
pub(crate) const SURVIVING_CLAIM: Rows = &[(Work::Commit(0), THREE), (Work::Commit(0), NOTHING)];

/// Reparents that are refused: another superclass of Object, and a superclass that is the kernel's, are none.
const REPARENTS: Rows = &[
    (Work::Reparent(OBJECT, OBJECT), Err(Refusal::KernelClass)),
    (Work::Reparent(SMALL_INTEGER, A), Err(Refusal::KernelClass)),
    (Work::Reparent(A, SMALL_INTEGER), Err(Refusal::KernelClass)),
    (Work::Reparent(A, A), Err(Refusal::Cycle)),
    (Work::Reparent(A, NOWHERE), Err(Refusal::UnknownClass)),
];

/// A commit that the history has no place for is refused again, until the claim is given back.
const FULL_HISTORY: Rows = &[
    (Work::Checkout(0), DONE),
    (Work::Local(0), STEPPED),
    (Work::Commit(0), FULL),
    (Work::Commit(0), FULL),
    (Work::Local(0), STEPPED),
    (Work::Commit(0), FULL),
    (Work::Release(0), DONE),
    (Work::Commit(0), NOTHING),
    (Work::Checkout(0), DONE),
    (Work::Commit(0), NONE),
];

const SCENES: &[Scene] = &[
    (MOST, &[POSTED], 5, End::Other),
    (MOST, &[POSTED, MISPLACED], 6, End::Begun),
    (MOST, &[POSTED, TWO_CLAIMS], 7, End::Ran(3)),
    (MOST, &[POSTED, TWO_CLAIMS, NO_STEPS], 7, End::Ran(3)),
    (
        MOST,
        &[POSTED, THREE_STEPS, TAG_EDITED, STALE_CLAIM],
        7,
        End::Other,
    ),
    (
        MOST,
        &[POSTED, THREE_STEPS, UNHEARD_EDITED, STALE_CLAIM],
        7,
        End::Other,
    ),
    (
        MOST,
        &[POSTED, THREE_STEPS, OTHER_EDITED, SURVIVING_CLAIM],
        8,
        End::Other,
    ),
    (
        MOST,
        &[POSTED, THREE_STEPS, SURVIVING_CLAIM],
        7,
        End::Ran(3),
    ),
    (
        MOST,
        &[POSTED, THREE_STEPS, MOVED, STALE_CLAIM],
        7,
        End::Other,
    ),
    (MOST, &[POSTED, REPARENTS], 5, End::Other),
    // A history of six items has no place for the steps that follow the beginning of a turn.
    (6, &[POSTED, FULL_HISTORY], 6, End::Begun),
];

/// Events, of which the second is refused.
const RUN: Rows = &[
    (Work::Checkout(0), DONE),
    (Work::Checkout(0), UNKNOWN),
    (Work::Local(0), STEPPED),
    (Work::Local(0), STEPPED),
    (Work::Commit(0), Ok(Answer::Steps(2))),
];

/// A whole turn by the first worker: the dispatch, and seven instructions.
const TURN: Rows = &[
    (Work::Checkout(0), DONE),
    (Work::Local(0), STEPPED),
    (Work::Local(0), STEPPED),
    (Work::Local(0), STEPPED),
    (Work::Local(0), STEPPED),
    (Work::Local(0), STEPPED),
    (Work::Local(0), STEPPED),
    (Work::Local(0), STEPPED),
    (Work::Local(0), STEPPED),
    (Work::Commit(0), Ok(Answer::Steps(8))),
];

/// The message is posted once more.
const POSTED_AGAIN: Rows = &[(Work::Post(2), Ok(Answer::Called(Called::Position(2))))];

// The tables stand behind functions without a contract, so that the proofs of tests carry none of them.
fn scenes() -> &'static [Scene] {
    SCENES
}

fn posted() -> Rows {
    POSTED
}

fn run_of_five() -> Rows {
    RUN
}

fn turn() -> Rows {
    TURN
}

fn posted_again() -> Rows {
    POSTED_AGAIN
}

fn event(alloc: Global, work: Work) -> Result<Event, AllocError> {
    Ok(match work {
        Work::Checkout(worker) => Event::Checkout {
            worker,
            actor: FIRST,
        },
        Work::Local(worker) => Event::Local(worker),
        Work::Commit(worker) => Event::Commit(worker),
        Work::Release(worker) => Event::Release(worker),
        Work::Forget(worker) => Event::Forget(worker),
        Work::Define => Event::Call(Call::Define {
            name: text(alloc, "A")?,
            parent: OBJECT,
            slots: Seq::from_vec(Vec::new(alloc)),
        }),
        Work::Install(class, source) => Event::Call(Call::Install {
            class,
            source: text(alloc, source)?,
        }),
        Work::Reparent(class, parent) => Event::Call(Call::Reparent { class, parent }),
        Work::Intern => Event::Call(Call::Intern(text(alloc, "go")?)),
        Work::Create => Event::Call(Call::Create(A)),
        Work::Post(seq) => Event::Call(Call::Post {
            sender: 1,
            seq,
            actor: FIRST,
            selector: GO,
            args: Seq::from_vec(Vec::new(alloc)),
        }),
    })
}

/// A worker whose caches keep no list of edits.
fn new_worker(alloc: Global) -> Result<Worker<GlobalGuard>, AllocError> {
    let mut worker = Worker::new(Caches::new(alloc, GlobalGuard::new())?);
    worker.forget();
    Ok(worker)
}

fn two_workers(alloc: Global) -> Result<Vec<Worker<GlobalGuard>>, AllocError> {
    let mut workers = Vec::new(alloc);
    for _ in 0..2 {
        workers.push(new_worker(alloc)?)?;
    }
    Ok(workers)
}

/// A new image with a history of at most this many items, and workers without claims.
fn new_system<M: Mailbox, G: Guard>(
    alloc: Global,
    history: u32,
    workers: Vec<Worker<G>>,
) -> Result<Box<System<M, G>>, Refusal> {
    let settings = Settings {
        capacity: 64,
        history,
    };
    Ok(system_of(alloc, Image::new(alloc, settings)?, workers)?)
}

/// The same with queues for mailboxes and two workers.
fn new_pair(alloc: Global) -> Result<Box<TwoWorkers>, Refusal> {
    new_system(alloc, MOST, two_workers(alloc)?)
}

/// Whether each event of some rows answers as it has to.
fn is_played<M: Mailbox, G: Guard>(
    alloc: Global,
    system: &mut System<M, G>,
    rows: Rows,
) -> Result<bool, AllocError> {
    for (work, wanted) in rows {
        let event = event(alloc, *work)?;
        if apply(alloc, system, &event) != *wanted {
            return Ok(false);
        }
    }
    Ok(true)
}

/// How many items the history has, and how it ends.
fn items_and_end<M: Mailbox, G: Guard>(system: &System<M, G>) -> (usize, End) {
    let history = history(image(system));
    let end = match history {
        [.., Item::Begun(begun), Item::Ran { actor, steps }]
            if *begun == FIRST && *actor == FIRST => End::Ran(*steps),
        [.., Item::Begun(begun)] if *begun == FIRST => End::Begun,
        _ => End::Other,
    };
    (history.len(), end)
}

/// Whether a scene goes as it has to, in a new image with these workers.
pub(crate) fn is_well<M: Mailbox, G: Guard>(
    alloc: Global,
    workers: Vec<Worker<G>>,
    scene: Scene,
) -> Result<bool, Refusal> {
    let (history, parts, items, end) = scene;
    let mut system: Box<System<M, G>> = new_system(alloc, history, workers)?;
    for rows in parts {
        if !is_played(alloc, &mut system, *rows)? {
            return Ok(false);
        }
    }
    Ok(items_and_end(&system) == (items, end))
}

#[test]
fn scenes_of_two_workers(rt: HostRuntime) -> Result<(), Fail> {
    for (place, scene) in scenes().iter().enumerate() {
        let workers = two_workers(rt.alloc())?;
        assert!(rt;
            is_well::<ListBox, GlobalGuard>(rt.alloc(), workers, *scene)?,
            "scene {place}"
        );
    }
    Ok(())
}

/// Lets a list of events happen.
fn run(alloc: Global, system: &mut TwoWorkers, rows: Rows) -> Result<(), AllocError> {
    let mut events = Vec::new(alloc);
    for (work, _) in rows {
        events.push(event(alloc, *work)?)?;
    }
    system.run(alloc, events.as_slice());
    system.known();
    Ok(())
}

/// A run goes on after a refused event: whether there are two workers then, and two steps were taken.
fn goes_on(alloc: Global) -> Result<bool, Refusal> {
    let mut system = new_pair(alloc)?;
    let is_posted = is_played(alloc, &mut system, posted())?;
    run(alloc, &mut system, run_of_five())?;
    Ok(is_posted && system.workers() == 2 && items_and_end(&system) == (7, End::Ran(2)))
}

#[test]
fn runs_events(rt: HostRuntime) -> Result<(), Fail> {
    assert!(rt; goes_on(rt.alloc())?);
    Ok(())
}

/// How the sends of the first site of `go` were found: at their site, by the lookup cache, by walks.
fn first_site_of_go(alloc: Global, system: &TwoWorkers) -> Result<(u64, u64, u64), Refusal> {
    let sites = system.image().stats(alloc, A, GO)?;
    let site = sites.first().ok_or(Refusal::NoSuchMethod)?;
    Ok((site.tally.by_site, site.tally.by_global, site.tally.by_walk))
}

/// How the first sends of two turns were found, where the message is posted again between them.
fn after_two_turns(alloc: Global) -> Result<(u64, u64, u64), Refusal> {
    let mut system = new_pair(alloc)?;
    let is_posted = is_played(alloc, &mut system, posted())?;
    run(alloc, &mut system, turn())?;
    if !is_posted || !is_played(alloc, &mut system, posted_again())? {
        return Err(Refusal::BadArguments);
    }
    run(alloc, &mut system, turn())?;
    first_site_of_go(alloc, &system)
}

/// What was found in a run is found at its site in the next one.
#[test]
fn runs_keep_what_they_found(rt: HostRuntime) -> Result<(), Fail> {
    assert!(rt; after_two_turns(rt.alloc())? == (1, 0, 1));
    Ok(())
}
