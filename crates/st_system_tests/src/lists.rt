//! Random lists of events for three workers, of actors that post to one another, close one another and make new ones.
use crate::dice::Dice;
use st_calls::calls::Call;
use st_classes::kernel::{OBJECT, SMALL_INTEGER};
use st_classes::seq::Seq;
use st_classes::values::{ActorId, ClassId, Selector, Value, Values};
use st_system::events::Event;
use std::alloc::{AllocError, Global};

/// The names that a system has beside the kernel's: the first is number 22. No method has another one.
const NAMES: &[&str] = &["go", "tag", "bump", "make", "ask:", "tell:to:", "missing"];

/// Methods and the numbers of their selectors. Each class can have them, but for the first: it is for a class with an instance
/// variable.
const METHODS: &[(u16, &str)] = &[
    (24, "bump s isNil ifTrue: [s := 0]. s := s + 1. ^s"),
    (22, "go ^3 tag + 1"),
    (22, "go ^self tag"),
    (
        22,
        "go | i | i := 0. [i < 4] whileTrue: [i := i + 2 tag]. ^i",
    ),
    (22, "go ^thisActor post: #bump"),
    (22, "go ^super tag"),
    (23, "tag ^1"),
    (23, "tag ^2"),
    (23, "tag ^self"),
    (24, "bump ^self missing"),
    (24, "bump ^7"),
    (25, "make ^A newActor"),
    (25, "make ^(A newActor) post: #ask: with: thisActor"),
    (25, "make ^thisActor post: #ask: with: self"),
    (25, "make ^thisActor post: 3"),
    (25, "make ^3 newActor"),
    (26, "ask: r ^r post: #go"),
    (
        26,
        "ask: r r post: #bump. r post: #tell:to: with: 1 with: thisActor. ^2",
    ),
    (26, "ask: r ^r close"),
    (27, "tell: x to: r ^r post: #ask: with: x"),
];

/// The methods that are installed first.
const FIRST: &[(ClassId, u16)] = &[
    (A, 1),
    (SMALL_INTEGER, 6),
    (A, 0),
    (A, 11),
    (A, 16),
    (B, 19),
];

/// Classes that get methods and actors; the last is none.
const HOLDERS: &[ClassId] = &[A, A, A, B, C, OBJECT, SMALL_INTEGER, ClassId(40)];

/// The classes of a list of events. Each has one instance variable.
pub(crate) const A: ClassId = ClassId(8);

pub(crate) const B: ClassId = ClassId(9);

pub(crate) const C: ClassId = ClassId(10);

// The tables stand behind functions without contracts, so that no proof carries anything of them.
pub(crate) fn names() -> &'static [&'static str] {
    NAMES
}

pub(crate) fn methods() -> &'static [(u16, &'static str)] {
    METHODS
}

fn first() -> &'static [(ClassId, u16)] {
    FIRST
}

fn holder(dice: &mut Dice) -> ClassId {
    HOLDERS
        .get(usize::from(dice.below(8)))
        .copied()
        .unwrap_or(A)
}

pub(crate) fn text(alloc: Global, text: &str) -> Result<Seq<u8>, AllocError> {
    Ok(Seq::from_vec(Vec::from_slice(alloc, text.as_bytes())?))
}

/// A number from 22 on, where the names of lists are.
fn number(dice: &mut Dice, most: u16) -> u16 {
    dice.below(most).saturating_add(22)
}

/// A class with its parent's instance variables, and one of its own if that has none.
pub(crate) fn define(alloc: Global, name: &str, parent: ClassId) -> Result<Event, AllocError> {
    let mut slots = Vec::new(alloc);
    if parent == OBJECT {
        slots.push(text(alloc, "s")?)?;
    }
    Ok(Event::Call(Call::Define {
        name: text(alloc, name)?,
        parent,
        slots: Seq::from_vec(slots),
    }))
}

pub(crate) fn install(alloc: Global, class: ClassId, row: u16) -> Result<Event, AllocError> {
    let source = match methods().get(usize::from(row)) {
        Some((_, source)) => *source,
        None => "",
    };
    Ok(Event::Call(Call::Install {
        class,
        source: text(alloc, source)?,
    }))
}

/// One of the three classes gets another superclass, or the one that it has, or one that it can't have.
fn random_reparent(dice: &mut Dice) -> Event {
    Event::Call(Call::Reparent {
        class: ClassId(dice.below(3).saturating_add(A.0)),
        parent: holder(dice),
    })
}

/// A method is installed or removed, or a class gets another superclass.
fn random_edit(alloc: Global, dice: &mut Dice) -> Result<Event, AllocError> {
    let class = holder(dice);
    match dice.below(32) {
        0 => install(alloc, A, 0),
        row @ 1..=19 => install(alloc, class, row),
        20..=28 => Ok(random_reparent(dice)),
        _ => Ok(Event::Call(Call::Remove {
            class,
            selector: Selector(number(dice, 6)),
        })),
    }
}

fn actor(dice: &mut Dice) -> ActorId {
    ActorId(u32::from(dice.below(5)))
}

/// A worker: of the last of four numbers there is none.
fn worker(dice: &mut Dice) -> u32 {
    u32::from(dice.below(31) / 10)
}

fn argument(dice: &mut Dice) -> Value {
    match dice.below(12) {
        0 => Value::Nil,
        1 => Value::Int(7),
        2 => Value::Sym(Selector(number(dice, 9))),
        3 => Value::Class(holder(dice)),
        4 => Value::Local(0),
        _ => Value::Actor(actor(dice)),
    }
}

/// Arguments of a message, as often as not as many as its selector takes.
fn arguments(alloc: Global, dice: &mut Dice, selector: u16) -> Result<Values, AllocError> {
    let count = match selector {
        26 => 1,
        27 => 2,
        _ => dice.below(8) / 7,
    };
    let mut args = Vec::new(alloc);
    for _ in 0..count {
        args.push(argument(dice))?;
    }
    Ok(Seq::from_vec(args))
}

/// A message of one of two clients.
fn random_post(alloc: Global, dice: &mut Dice, round: u16) -> Result<Event, AllocError> {
    let selector = number(dice, 8);
    Ok(Event::Call(Call::Post {
        sender: dice.below(2),
        seq: u64::from(round.saturating_sub(dice.below(12))),
        actor: actor(dice),
        selector: Selector(selector),
        args: arguments(alloc, dice, selector)?,
    }))
}

/// An event of a worker or an actor, for which no memory is needed.
fn random_work(dice: &mut Dice) -> Event {
    let worker = worker(dice);
    match dice.below(400) {
        0..=3 => Event::Call(Call::Create(holder(dice))),
        4 => Event::Call(Call::Close(actor(dice))),
        5..=124 => Event::Checkout {
            worker,
            actor: actor(dice),
        },
        125..=130 => Event::Release(worker),
        131..=136 => Event::Forget(worker),
        137..=180 => Event::Commit(worker),
        397..=399 => Event::Call(Call::Checkpoint),
        _ => Event::Local(worker),
    }
}

/// The event of a round.
fn random_event(alloc: Global, dice: &mut Dice, round: u16) -> Result<Event, AllocError> {
    match dice.below(100) {
        0..=1 => random_edit(alloc, dice),
        2..=17 => random_post(alloc, dice, round),
        _ => Ok(random_work(dice)),
    }
}

/// Two classes, their methods, and three actors.
pub(crate) fn first_events(alloc: Global) -> Result<Vec<Event>, AllocError> {
    let mut events = Vec::new(alloc);
    events.push(define(alloc, "A", OBJECT)?)?;
    events.push(define(alloc, "B", A)?)?;
    for (class, row) in first() {
        events.push(install(alloc, *class, *row)?)?;
    }
    for class in [A, A, B] {
        events.push(Event::Call(Call::Create(class)))?;
    }
    Ok(events)
}

/// The list of a seed, with this many random events.
pub(crate) fn random_list(alloc: Global, seed: u64, count: u16) -> Result<Vec<Event>, AllocError> {
    let mut dice = Dice::new(seed);
    let mut events = first_events(alloc)?;
    events.push(define(alloc, "C", A)?)?;
    for round in 0..count {
        events.push(random_event(alloc, &mut dice, round)?)?;
    }
    Ok(events)
}
