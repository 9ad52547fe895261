//! Workers that wait: what wakes them, and that they end.
use crate::calls::*;
use crate::doors::{Marks, pause};
use crate::plays::totals;
use crate::scenes::Scene;
use st_classes::refusals::Refusal;
use st_classes::values::{ActorId, Value};
use st_pool::totals::Totals;
use std::alloc::Global;
use std::sync::Wait;
use std::test::*;
use std::time::Clock;

/// Nothing is asked, and the workers wait when they are told to stop.
pub fn rest<R: Clock>(rt: &R) -> bool {
    pause(rt, 50);
    true
}

/// The worker has a claim when it is told to stop, and is let go then. Its quantum is committed.
pub fn stopping<C: Calls, R: Wait + Clock>(
    rt: &R,
    alloc: Global,
    caller: &mut C,
    marks: &Marks,
) -> bool {
    make_actor(rt, alloc, caller, "a ^3 + 4 * 2")
        && post(rt, alloc, caller, 1, FIRST, "a") == Ok(1)
        && marks.await_claims(rt, 1)
}

/// The same with a turn that has no end: of it one quantum is committed.
pub fn endless<C: Calls, R: Wait + Clock>(
    rt: &R,
    alloc: Global,
    caller: &mut C,
    marks: &Marks,
) -> bool {
    make_actor(rt, alloc, caller, "spin [true] whileTrue: [nil]")
        && post(rt, alloc, caller, 1, FIRST, "spin") == Ok(1)
        && marks.await_claims(rt, 1)
}

/// How the sends of the two sites of the first actor's method were found: at their site, by the lookup cache, and by walks.
fn has_found<C: Calls, R: Wait>(
    rt: &R,
    alloc: Global,
    caller: &mut C,
    wanted: &[(u64, u64, u64)],
) -> bool {
    let Ok(selector) = caller.intern(rt, alloc, b"a") else {
        return false;
    };
    let Ok(sites) = caller.stats(rt, alloc, A, selector) else {
        return false;
    };
    for (site, wanted) in sites.iter().zip(wanted) {
        let tally = site.tally;
        if (tally.by_site, tally.by_global, tally.by_walk) != *wanted {
            return false;
        }
    }
    sites.len() == wanted.len()
}

/// A turn of 3,012 steps has three quanta of at most 1,024. Its worker keeps from one to the next what it found: of 301 comparisons and 300
/// sums the first ones alone are walks.
pub fn long_turn<C: Calls, R: Wait + Clock>(
    rt: &R,
    alloc: Global,
    caller: &mut C,
    marks: &Marks,
) -> bool {
    let source = "a | i | i := 0. [i < 300] whileTrue: [i := i + 1]. ^i";
    make_actor(rt, alloc, caller, source)
        && post(rt, alloc, caller, 1, FIRST, "a") == Ok(1)
        && answers(rt, caller, FIRST, 1, 300)
        && marks.claims() == 3
        && has_found(rt, alloc, caller, &[(300, 0, 1), (299, 0, 1)])
}

/// Looks at the image without a pause until a turn has ended, so that the worker often finds the lock held.
fn hurry<C: Calls, R: Wait>(rt: &R, caller: &mut C, actor: ActorId, turn: u64) {
    for _ in 0..100_000 {
        let _ = caller.seen_posts(rt, actor, 1);
        if caller.outcome(rt, actor, turn) != Err(Refusal::Pending) {
            return;
        }
    }
}

/// Turns of 200,862 steps, whose last quantum is short, beside turns twice as long. A worker that finds the lock held has claims of
/// both, and goes on with the one when a turn of the other ends. At first five more actors have a long turn each.
pub fn hurried<C: Calls, R: Wait + Clock>(rt: &R, alloc: Global, caller: &mut C) -> bool {
    let source = "count: n | i | i := 0. [i < n] whileTrue: [i := i + 1]. ^i";
    if !make_actor(rt, alloc, caller, source) || caller.create(rt, alloc, A) != Ok(SECOND) {
        return false;
    }
    for actor in 2..7 {
        let is_posted = caller.create(rt, alloc, A) == Ok(ActorId(actor))
            && post_with(
                rt,
                alloc,
                caller,
                actor.into(),
                ActorId(actor),
                "count:",
                Value::Int(40170),
            ) == Ok(1);
        if !is_posted {
            return false;
        }
    }
    for turn in 1..9 {
        let (first, second) = (Value::Int(20085), Value::Int(40170));
        let are_posted = post_with(rt, alloc, caller, turn * 2 + 6, FIRST, "count:", first)
            == Ok(turn)
            && post_with(rt, alloc, caller, turn * 2 + 7, SECOND, "count:", second) == Ok(turn);
        if !are_posted {
            return false;
        }
    }
    hurry(rt, caller, FIRST, 8);
    answers(rt, caller, FIRST, 8, 20085) && answers(rt, caller, SECOND, 8, 40170)
}

/// The worker waits each time that a message is posted.
pub fn waking<C: Calls, R: Wait + Clock>(rt: &R, alloc: Global, caller: &mut C) -> bool {
    if !make_actor(rt, alloc, caller, "a ^3 + 4 * 2") {
        return false;
    }
    for number in 1..4 {
        pause(rt, 50);
        let is_answered = post(rt, alloc, caller, number, FIRST, "a") == Ok(number)
            && answers(rt, caller, FIRST, number, 14);
        if !is_answered {
            return false;
        }
    }
    true
}

/// The first quantum posts to the second actor, and its own turn goes on. Neither of the two claims that follow is let go before the
/// other is out, so both workers are needed, and the commit must have woken the one that waits. An actor that is made meanwhile has had it
/// look again since the post.
pub fn waking_by_commit<C: Calls, R: Wait + Clock>(
    rt: &R,
    alloc: Global,
    caller: &mut C,
    marks: &Marks,
) -> bool {
    make_actor(rt, alloc, caller, "ask: r ^r post: #tick")
        && define(rt, alloc, caller, "Kid") == Ok(3)
        && caller.install(rt, alloc, KID, "tick ^7") == Ok(4)
        && caller.create(rt, alloc, KID) == Ok(SECOND)
        && post_with(rt, alloc, caller, 1, FIRST, "ask:", Value::Actor(SECOND)) == Ok(1)
        && marks.await_claims(rt, 1)
        && caller.create(rt, alloc, KID) == Ok(ActorId(2))
        && answers(rt, caller, SECOND, 1, 7)
        && marks.await_ended(rt, 3)
        && marks.claims() == 3
}

/// Each of two actors posts to itself 3,000 times. A turn that posts has 15 steps, the last one 9. Workers of so short quanta are in each
/// other's way, so one of them may rest; it has to end all the same.
pub fn rally<C: Calls, R: Wait + Clock>(rt: &R, alloc: Global, caller: &mut C) -> bool {
    let source = "rally: n n > 0 ifTrue: [thisActor post: #rally: with: n - 1]. ^n";
    make_actor(rt, alloc, caller, source)
        && caller.create(rt, alloc, A) == Ok(SECOND)
        && post_with(rt, alloc, caller, 1, FIRST, "rally:", Value::Int(3000)) == Ok(1)
        && post_with(rt, alloc, caller, 2, SECOND, "rally:", Value::Int(3000)) == Ok(1)
        && answers(rt, caller, FIRST, 3001, 0)
        && answers(rt, caller, SECOND, 3001, 0)
}

/// What all have done together. An actor's own posts are none of a caller.
const SCENES: &[(Scene, Totals)] = &[
    (
        Scene::Rest,
        Totals {
            posts: 0,
            edits: 0,
            steps: 0,
        },
    ),
    (
        Scene::Stopping,
        Totals {
            posts: 1,
            edits: 2,
            steps: 7,
        },
    ),
    (
        Scene::Endless,
        Totals {
            posts: 1,
            edits: 2,
            steps: 256,
        },
    ),
    (
        Scene::LongTurn,
        Totals {
            posts: 1,
            edits: 2,
            steps: 3012,
        },
    ),
    (
        Scene::Hurried,
        Totals {
            posts: 21,
            edits: 2,
            steps: 6829152,
        },
    ),
    (
        Scene::Waking,
        Totals {
            posts: 3,
            edits: 2,
            steps: 21,
        },
    ),
    (
        Scene::WakingByCommit,
        Totals {
            posts: 1,
            edits: 4,
            steps: 8,
        },
    ),
    (
        Scene::Rally,
        Totals {
            posts: 2,
            edits: 2,
            steps: 90018,
        },
    ),
];

/// The table behind a function without a contract, so that the proof of a test carries none of it.
fn scenes() -> &'static [(Scene, Totals)] {
    SCENES
}

#[test]
fn workers_wake_and_end(rt: HostRuntime) -> Result<(), Fail> {
    for (scene, wanted) in scenes() {
        assert!(rt;
            totals(&rt, rt.alloc(), *scene) == Some(Ok(*wanted)),
            "{scene:?}"
        );
    }
    Ok(())
}
