//! Workers whose quanta overlap.
use crate::calls::*;
use crate::plays::{Missing, totals, totals_without};
use crate::scenes::Scene;
use st_classes::refusals::Refusal;
use st_classes::values::ActorId;
use st_pool::totals::Totals;
use std::alloc::Global;
use std::sync::Wait;
use std::test::*;
use std::time::Clock;

/// Two actors get a message each, of which neither turn is let go before the other is begun. A third message is posted twice, of
/// which the history shows one.
pub fn overlap<C: Calls, R: Wait + Clock>(rt: &R, alloc: Global, caller: &mut C) -> bool {
    make_actor(rt, alloc, caller, "a ^3 + 4 * 2")
        && caller.create(rt, alloc, A) == Ok(SECOND)
        && post(rt, alloc, caller, 1, FIRST, "a") == Ok(1)
        && post(rt, alloc, caller, 2, SECOND, "a") == Ok(1)
        && answers(rt, caller, FIRST, 1, 14)
        && answers(rt, caller, SECOND, 1, 14)
        && post(rt, alloc, caller, 3, FIRST, "a") == Ok(2)
        && post(rt, alloc, caller, 3, FIRST, "a") == Err(Refusal::Old { last: 3 })
        && caller.seen_posts(rt, FIRST, 3) == 1
        && answers(rt, caller, FIRST, 2, 14)
}

/// Four actors get a message each, of which no turn is let go before all are begun.
pub fn overlap_of_four<C: Calls, R: Wait + Clock>(rt: &R, alloc: Global, caller: &mut C) -> bool {
    if !make_actor(rt, alloc, caller, "a ^3 + 4 * 2") {
        return false;
    }
    for number in 1..4 {
        if caller.create(rt, alloc, A) != Ok(ActorId(number)) {
            return false;
        }
    }
    for number in 0..4 {
        let seq = 1u64.wrapping_add(u64::from(number));
        if post(rt, alloc, caller, seq, ActorId(number), "a") != Ok(1) {
            return false;
        }
    }
    for number in 0..4 {
        if !answers(rt, caller, ActorId(number), 1, 14) {
            return false;
        }
    }
    true
}

/// Two actors get a message each, whose turn takes three quanta. Each of these waits for one of the other actor's, so no worker may rest.
pub fn pace<C: Calls, R: Wait + Clock>(rt: &R, alloc: Global, caller: &mut C) -> bool {
    make_actor(rt, alloc, caller, "a ^3 + 4 * 2")
        && caller.create(rt, alloc, A) == Ok(SECOND)
        && post(rt, alloc, caller, 1, FIRST, "a") == Ok(1)
        && post(rt, alloc, caller, 2, SECOND, "a") == Ok(1)
        && answers(rt, caller, FIRST, 1, 14)
        && answers(rt, caller, SECOND, 1, 14)
}

/// What all have done together. A turn has seven steps.
const SCENES: &[(Scene, Totals)] = &[
    (
        Scene::OverlapOfFour,
        Totals {
            posts: 4,
            edits: 2,
            steps: 28,
        },
    ),
    (
        Scene::Pace,
        Totals {
            posts: 2,
            edits: 2,
            steps: 14,
        },
    ),
];

/// The table behind a function without a contract, so that the proof of a test carries none of it.
fn scenes() -> &'static [(Scene, Totals)] {
    SCENES
}

#[test]
fn all_workers_go_on(rt: HostRuntime) -> Result<(), Fail> {
    for (scene, wanted) in scenes() {
        assert!(rt;
            totals(&rt, rt.alloc(), *scene) == Some(Ok(*wanted)),
            "{scene:?}"
        );
    }
    Ok(())
}

#[test]
fn two_workers_settle(rt: HostRuntime) -> Result<(), Fail> {
    let wanted = Totals {
        posts: 3,
        edits: 2,
        steps: 21,
    };
    let all = totals(&rt, rt.alloc(), Scene::Overlap);
    assert!(rt; all == Some(Ok(wanted)), "all shares");
    for missing in [Missing::Caller, Missing::Worker] {
        let some = totals_without(&rt, rt.alloc(), Scene::Overlap, missing);
        assert!(rt; some == Some(Err(Refusal::BadArguments)), "{missing:?}");
    }
    Ok(())
}
