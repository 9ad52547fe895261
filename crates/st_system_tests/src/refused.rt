//! Events for which memory is refused: each that finds none leaves the image as it stood, and answers when it is asked again as it does
//! with ample memory; and a run in which one finds none leads to where the other events lead. Memory is refused where this runs with an
//! allocation that fails, as `tools/refused-growth` has it for each in turn.
use crate::boxes::difference;
use crate::lists::{A, B, C, define, install, text};
use crate::rounds::{ASK, ASKED, BUSY, GO, IDLE, Rounds};
use crate::workers::*;
use st_calls::calls::Call;
use st_classes::refusals::Refusal;
use st_classes::values::{ActorId, Selector, Value};
use st_guard::switch_guard::SwitchGuard;
use st_mailbox::ring_box::RingBox;
use st_system::events::{Answer, Event};
use st_system::system::System;
use std::alloc::{AllocError, Global};
use std::test::*;

type Rings = System<RingBox, SwitchGuard>;

/// `tag`, which each number has a method for.
const TAG: Selector = Selector(23);

/// `make`, whose third step makes an actor.
const MAKE: Selector = Selector(25);

/// The names and the class table change.
fn edit(alloc: Global, rounds: &mut Rounds) -> Result<(), AllocError> {
    rounds.add(Event::Call(Call::Intern(text(alloc, "fresh:")?)))?;
    rounds.add(define(alloc, "C", A)?)?;
    rounds.add(install(alloc, C, 6)?)?;
    rounds.add(Event::Call(Call::Remove {
        class: C,
        selector: TAG,
    }))?;
    rounds.add(Event::Call(Call::Reparent {
        class: C,
        parent: B,
    }))?;
    rounds.add(Event::Call(Call::Create(C)))
}

/// An actor makes another one, and posts to a third one, which takes its turn.
fn talk(alloc: Global, rounds: &mut Rounds) -> Result<(), AllocError> {
    rounds.post(alloc, ASKED, MAKE, &[])?;
    rounds.post(alloc, ASKED, ASK, &[Value::Actor(BUSY)])?;
    for steps in [2, 1, 3, 1] {
        rounds.quantum(0, ASKED, steps)?;
    }
    rounds.quantum(1, BUSY, 8)
}

/// A worker takes a step of the busy actor, and has the claim while the class table changes.
fn edit_under(rounds: &mut Rounds, edit: Event) -> Result<(), AllocError> {
    rounds.add(Event::Checkout {
        worker: 0,
        actor: BUSY,
    })?;
    rounds.add(Event::Local(0))?;
    rounds.add(edit)?;
    rounds.add(Event::Commit(0))
}

/// Claims over edits. The first has dispatched `go`, and survives a definition; the second has used no selector, and survives a reparent;
/// the third has sent `tag`, and is stale after another one; the fourth takes that step anew, and survives an install for `bump`.
fn survive(alloc: Global, rounds: &mut Rounds) -> Result<(), AllocError> {
    rounds.post(alloc, BUSY, GO, &[])?;
    edit_under(rounds, define(alloc, "D", A)?)?;
    for parent in [A, B] {
        edit_under(rounds, Event::Call(Call::Reparent { class: C, parent }))?;
    }
    edit_under(rounds, install(alloc, B, 10)?)?;
    rounds.quantum(0, BUSY, 8)
}

/// A worker takes a step of an actor and gives its claim back.
fn give_back(rounds: &mut Rounds, actor: ActorId) -> Result<(), AllocError> {
    rounds.add(Event::Checkout { worker: 1, actor })?;
    rounds.add(Event::Local(1))?;
    rounds.add(Event::Release(1))
}

/// A claim is kept over a checkpoint, and caches are emptied.
fn keep(rounds: &mut Rounds, actor: ActorId) -> Result<(), AllocError> {
    rounds.add(Event::Checkout { worker: 2, actor })?;
    rounds.add(Event::Local(2))?;
    rounds.add(Event::Call(Call::Checkpoint))?;
    rounds.add(Event::Forget(2))?;
    rounds.add(Event::Local(2))?;
    rounds.add(Event::Commit(2))
}

/// Claims are given back and kept, and a mailbox is closed.
fn go_on(alloc: Global, rounds: &mut Rounds) -> Result<(), AllocError> {
    rounds.post(alloc, BUSY, GO, &[])?;
    rounds.post(alloc, IDLE, GO, &[])?;
    give_back(rounds, BUSY)?;
    give_back(rounds, IDLE)?;
    keep(rounds, BUSY)?;
    rounds.add(Event::Call(Call::Close(BUSY)))?;
    rounds.quantum(2, IDLE, 8)
}

fn all_events(alloc: Global) -> Result<Vec<Event>, AllocError> {
    let mut rounds = Rounds::begin(alloc)?;
    edit(alloc, &mut rounds)?;
    talk(alloc, &mut rounds)?;
    survive(alloc, &mut rounds)?;
    go_on(alloc, &mut rounds)?;
    Ok(rounds.events)
}

/// In what the images of two systems differ. What differs is looked at twice, since memory may be refused for a look.
fn difference_again(alloc: Global, one: &Rings, other: &Rings) -> Option<&'static str> {
    match difference(alloc, image(one), image(other)) {
        None => None,
        Some(_) => difference(alloc, image(one), image(other)),
    }
}

fn apply_again(alloc: Global, system: &mut Rings, event: &Event) -> Answered {
    match apply(alloc, system, event) {
        Err(Refusal::NoMemory) => apply(alloc, system, event),
        answer => answer,
    }
}

/// What the commits of all events answer: those of talks, of claims over edits, and of what goes on.
const COMMITS: &[Answered] = &[
    Ok(Answer::Steps(3)),
    Ok(Answer::Steps(1)),
    Ok(Answer::Steps(4)),
    Ok(Answer::Steps(1)),
    Ok(Answer::Steps(8)),
    Ok(Answer::Steps(1)),
    Ok(Answer::Steps(1)),
    Err(Refusal::Stale { version: 15 }),
    Ok(Answer::Steps(1)),
    Ok(Answer::Steps(5)),
    Ok(Answer::Steps(2)),
    Ok(Answer::Steps(8)),
];

/// The table behind a function without a contract, so that no proof carries anything of it.
fn commits() -> &'static [Answered] {
    COMMITS
}

/// What an event of the first of two twins answers, which is asked again where it finds no memory; or what is wrong with it. The other one
/// is asked again too.
fn answer_of_both(
    alloc: Global,
    one: &mut Rings,
    other: &mut Rings,
    event: &Event,
) -> Result<Answered, &'static str> {
    let mut answer = apply(alloc, one, event);
    if answer == Err(Refusal::NoMemory) {
        if let Some(part) = difference_again(alloc, one, other) {
            return Err(part);
        }
        answer = apply(alloc, one, event);
    }
    if apply_again(alloc, other, event) == answer {
        Ok(answer)
    } else {
        Err("answers")
    }
}

/// The first event that is wrong, and with what, a commit also where it answers something else; or in what the twins differ behind all.
fn first_wrong(
    alloc: Global,
    one: &mut Rings,
    other: &mut Rings,
    events: &[Event],
) -> Option<(usize, &'static str)> {
    let mut commits = commits().iter();
    for (place, event) in events.iter().enumerate() {
        let answer = match answer_of_both(alloc, one, other, event) {
            Ok(answer) => answer,
            Err(part) => return Some((place, part)),
        };
        if matches!(event, Event::Commit(_)) && commits.next() != Some(&answer) {
            return Some((place, "commits"));
        }
    }
    let part = difference_again(alloc, one, other)?;
    Some((events.len(), part))
}

/// The same of new twins.
fn wrong_with_twins(alloc: Global) -> Result<Option<(usize, &'static str)>, Refusal> {
    let events = all_events(alloc)?;
    let mut one = new_rings(alloc)?;
    let mut other = new_rings(alloc)?;
    Ok(first_wrong(alloc, &mut one, &mut other, &events))
}

#[test]
fn events_are_asked_again(rt: HostRuntime) -> Result<(), Fail> {
    assert_eq!(rt; wrong_with_twins(rt.alloc())?, None);
    Ok(())
}

fn run(alloc: Global, system: &mut Rings, events: &[Event]) {
    system.run(alloc, events);
}

/// Whether a system stands where the events lead but for the one at a place.
fn is_led_without(
    alloc: Global,
    system: &Rings,
    events: &[Event],
    without: usize,
) -> Result<bool, Refusal> {
    let mut other = new_rings(alloc)?;
    for (place, event) in events.iter().enumerate() {
        if place != without {
            let _answer = apply(alloc, &mut other, event);
        }
    }
    Ok(difference_again(alloc, system, &other).is_none())
}

/// Whether a system stands where all events lead. It is looked at twice, since memory may be refused where they lead to it.
fn is_led_by_all(alloc: Global, system: &Rings, events: &[Event]) -> Result<bool, Refusal> {
    let all = events.len();
    Ok(is_led_without(alloc, system, events, all)? || is_led_without(alloc, system, events, all)?)
}

/// Whether a system stands where all events lead, or all but one.
fn is_led(alloc: Global, system: &Rings, events: &[Event]) -> Result<bool, Refusal> {
    if is_led_by_all(alloc, system, events)? {
        return Ok(true);
    }
    for without in 0..events.len() {
        if is_led_without(alloc, system, events, without)? {
            return Ok(true);
        }
    }
    Ok(false)
}

fn is_run(alloc: Global) -> Result<bool, Refusal> {
    let events = all_events(alloc)?;
    let mut system = new_rings(alloc)?;
    run(alloc, &mut system, &events);
    is_led(alloc, &system, &events)
}

#[test]
fn runs_leave_no_more_than_one_event(rt: HostRuntime) -> Result<(), Fail> {
    assert!(rt; is_run(rt.alloc())?);
    Ok(())
}
