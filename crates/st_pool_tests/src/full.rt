//! A history that is full: workers wait, and a call of a caller lets them look again.
use crate::calls::*;
use crate::doors::{Marks, pause};
use crate::plays::totals;
use crate::scenes::Scene;
use st_classes::kernel::{IS_NIL, OBJECT};
use st_classes::refusals::Refusal;
use st_classes::seq::Seq;
use st_pool::totals::Totals;
use std::alloc::Global;
use std::sync::Wait;
use std::test::*;
use std::time::Clock;

/// With four items the history has no room for the beginning of the turn: no claim is handed out, and a further post is refused.
pub fn at_checkout<C: Calls, R: Wait + Clock>(
    rt: &R,
    alloc: Global,
    caller: &mut C,
    marks: &Marks,
) -> bool {
    let is_posted = make_actor(rt, alloc, caller, "go ^1")
        && post(rt, alloc, caller, 1, FIRST, "go") == Ok(1);
    pause(rt, 20);
    is_posted
        && post(rt, alloc, caller, 2, FIRST, "go") == Err(Refusal::HistoryFull)
        && caller.outcome(rt, FIRST, 1) == Err(Refusal::Pending)
        && marks.claims() == 0
}

/// Calls that wake a worker, though they are refused or, as interning a text, change nothing for it.
#[derive(Clone, Copy, PartialEq, Eq, Debug)]
enum Call {
    Define,
    Install,
    Remove,
    Reparent,
    Create,
    Close,
    Post,
    Intern,
}

/// The calls one after the other, and how many quanta there were after each.
const CALLS: &[(Call, u64)] = &[
    (Call::Define, 2),
    (Call::Install, 3),
    (Call::Remove, 4),
    (Call::Reparent, 5),
    (Call::Create, 6),
    (Call::Close, 7),
    (Call::Post, 8),
    (Call::Intern, 9),
];

/// The table behind a function without a contract, so that the proof of a test carries none of it.
fn calls() -> &'static [(Call, u64)] {
    CALLS
}

/// Whether a call is refused, since the history is full. That of a text which is there is not.
fn is_refused<C: Calls, R: Wait + Clock>(
    rt: &R,
    alloc: Global,
    caller: &mut C,
    call: Call,
) -> bool {
    let refused = match call {
        Call::Define => define(rt, alloc, caller, "B").err(),
        Call::Install => caller.install(rt, alloc, A, "stop ^2").err(),
        Call::Remove => remove(rt, alloc, caller, A, "go").err(),
        Call::Reparent => caller.reparent(rt, alloc, A, OBJECT).err(),
        Call::Create => caller.create(rt, alloc, A).err(),
        Call::Close => caller.close(rt, alloc, FIRST).err(),
        Call::Post => {
            let none = Seq::from_vec(Vec::new(alloc));
            caller.post(rt, alloc, 1, 2, FIRST, IS_NIL, none).err()
        }
        Call::Intern => return caller.intern(rt, alloc, b"isNil") == Ok(IS_NIL),
    };
    refused == Some(Refusal::HistoryFull)
}

/// Whether this many quanta are over soon, and no more are begun while nobody calls.
fn rests_after<R: Clock>(rt: &R, marks: &Marks, quanta: u64) -> bool {
    let is_over = marks.await_ended(rt, quanta);
    pause(rt, 20);
    is_over && marks.claims() == quanta
}

/// With five items the turn is begun, and has no room for its steps. Its claim is handed back and released, so that the next call
/// finds the actor ready again.
pub fn at_commit<C: Calls, R: Wait + Clock>(
    rt: &R,
    alloc: Global,
    caller: &mut C,
    marks: &Marks,
) -> bool {
    let is_posted = make_actor(rt, alloc, caller, "go ^1")
        && post(rt, alloc, caller, 1, FIRST, "go") == Ok(1);
    if !is_posted || !rests_after(rt, marks, 1) {
        return false;
    }
    for (call, quanta) in calls() {
        if !is_refused(rt, alloc, caller, *call) || !rests_after(rt, marks, *quanta) {
            return false;
        }
    }
    caller.outcome(rt, FIRST, 1) == Err(Refusal::Pending)
}

/// As before; but the worker is kept, after its commit was refused, until a call was made. It must not wait for another then.
pub fn late_wait<C: Calls, R: Wait + Clock>(
    rt: &R,
    alloc: Global,
    caller: &mut C,
    marks: &Marks,
) -> bool {
    let is_called = make_actor(rt, alloc, caller, "go ^1")
        && post(rt, alloc, caller, 1, FIRST, "go") == Ok(1)
        && marks.await_ended(rt, 1)
        && is_refused(rt, alloc, caller, Call::Close);
    marks.tell();
    is_called && rests_after(rt, marks, 2)
}

/// As before; but a checkpoint makes room, and a worker begins the quantum once more, in what is turn 0 then.
pub fn room_again<C: Calls, R: Wait + Clock>(
    rt: &R,
    alloc: Global,
    caller: &mut C,
    marks: &Marks,
) -> bool {
    make_actor(rt, alloc, caller, "go ^1")
        && post(rt, alloc, caller, 1, FIRST, "go") == Ok(1)
        && rests_after(rt, marks, 1)
        && is_refused(rt, alloc, caller, Call::Close)
        && rests_after(rt, marks, 2)
        && caller.checkpoint(rt, alloc) == Ok(1)
        && answers(rt, caller, FIRST, 0, 1)
        && post(rt, alloc, caller, 2, FIRST, "go") == Ok(1)
        && answers(rt, caller, FIRST, 1, 1)
}

#[test]
fn a_checkpoint_makes_room(rt: HostRuntime) -> Result<(), Fail> {
    // each turn has three steps
    let wanted = Totals {
        posts: 2,
        edits: 2,
        steps: 6,
    };
    assert!(rt; totals(&rt, rt.alloc(), Scene::RoomAgain) == Some(Ok(wanted)));
    Ok(())
}

#[test]
fn workers_wait_where_the_history_is_full(rt: HostRuntime) -> Result<(), Fail> {
    let wanted = Totals {
        posts: 1,
        edits: 2,
        steps: 0,
    };
    for scene in [Scene::FullAtCheckout, Scene::FullAtCommit, Scene::LateWait] {
        assert!(rt;
            totals(&rt, rt.alloc(), scene) == Some(Ok(wanted)),
            "{scene:?}"
        );
    }
    Ok(())
}
