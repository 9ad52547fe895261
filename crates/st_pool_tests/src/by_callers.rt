//! Worked scripts through a caller, while one worker runs.
use crate::calls::*;
use crate::doors::Marks;
use crate::plays::totals;
use crate::scenes::Scene;
use st_classes::faults::Fault;
use st_classes::kernel::OBJECT;
use st_classes::refusals::Refusal;
use st_classes::values::Selector;
use st_image::tallies::SiteStats;
use st_pool::totals::Totals;
use st_sites::site::SiteState;
use st_turn::body::Outcome;
use std::alloc::Global;
use std::sync::Wait;
use std::test::*;
use std::time::Clock;

/// Whether a method has one site, which sends a selector, and whose sends were all found by walks: this many.
fn are_walks(sites: &[SiteStats], selector: Selector, sends: u64) -> bool {
    let [site] = sites else {
        return false;
    };
    let tally = site.tally;
    site.selector == selector
        && !site.is_super
        && tally.by_walk == sends
        && tally.by_site == 0
        && tally.by_global == 0
        && tally.state == SiteState::Mono
}

/// What the caller is told of the sites of `A go`.
fn sites_of_go<C: Calls, R: Wait>(
    rt: &R,
    alloc: Global,
    caller: &mut C,
) -> Result<Vec<SiteStats>, Refusal> {
    let go = caller.intern(rt, alloc, b"go")?;
    caller.stats(rt, alloc, A, go)
}

/// Whether the caller is told that this many sends of `missing` in `A go` were found by walks, and no others.
fn has_walked<C: Calls, R: Wait>(rt: &R, alloc: Global, caller: &mut C, sends: u64) -> bool {
    let Ok(missing) = caller.intern(rt, alloc, b"missing") else {
        return false;
    };
    match sites_of_go(rt, alloc, caller) {
        Ok(sites) => are_walks(sites.as_slice(), missing, sends),
        Err(_) => false,
    }
}

/// Whether a turn of the first actor ends soon with the fault of a message that is not understood.
fn is_not_understood<C: Calls, R: Wait + Clock>(rt: &R, caller: &mut C, turn: u64) -> bool {
    ended(rt, caller, FIRST, turn) == Ok(Outcome::Fault(Fault::NotUnderstood))
}

/// A message that nobody understands, that all understand once Object has a method for it, and that nobody understands again.
pub fn not_understood<C: Calls, R: Wait + Clock>(rt: &R, alloc: Global, caller: &mut C) -> bool {
    make_actor(rt, alloc, caller, "go ^self missing")
        && post(rt, alloc, caller, 1, FIRST, "go") == Ok(1)
        && is_not_understood(rt, caller, 1)
        && caller.install(rt, alloc, OBJECT, "missing ^7") == Ok(3)
        && post(rt, alloc, caller, 2, FIRST, "go") == Ok(2)
        && answers(rt, caller, FIRST, 2, 7)
        && remove(rt, alloc, caller, OBJECT, "missing") == Ok(4)
        && post(rt, alloc, caller, 3, FIRST, "go") == Ok(3)
        && is_not_understood(rt, caller, 3)
        && has_walked(rt, alloc, caller, 3)
        && remove(rt, alloc, caller, OBJECT, "missing") == Err(Refusal::NoSuchMethod)
}

/// While the worker holds a claim of the first actor, the second gets two messages, and its mailbox is closed. Both turns end, and the
/// first actor's mailbox is open still.
pub fn closing<C: Calls, R: Wait + Clock>(
    rt: &R,
    alloc: Global,
    caller: &mut C,
    marks: &Marks,
) -> bool {
    let is_closed = make_actor(rt, alloc, caller, "a ^3 + 4 * 2")
        && caller.create(rt, alloc, A) == Ok(SECOND)
        && post(rt, alloc, caller, 1, FIRST, "a") == Ok(1)
        && marks.await_claims(rt, 1)
        && post(rt, alloc, caller, 2, SECOND, "a") == Ok(1)
        && post(rt, alloc, caller, 3, SECOND, "a") == Ok(2)
        && caller.close(rt, alloc, SECOND) == Ok(())
        && post(rt, alloc, caller, 4, SECOND, "a") == Err(Refusal::Closed)
        && caller.close(rt, alloc, SECOND) == Err(Refusal::Closed)
        && post(rt, alloc, caller, 5, FIRST, "a") == Ok(2);
    marks.tell();
    is_closed
        && answers(rt, caller, SECOND, 1, 14)
        && answers(rt, caller, SECOND, 2, 14)
        && answers(rt, caller, FIRST, 1, 14)
        && answers(rt, caller, FIRST, 2, 14)
        && caller.outcome(rt, SECOND, 3) == Err(Refusal::Pending)
}

/// A sender's numbers only rise. Each turn has seven steps, which are three quanta of at most three.
pub fn numbers<C: Calls, R: Wait + Clock>(
    rt: &R,
    alloc: Global,
    caller: &mut C,
    marks: &Marks,
) -> bool {
    make_actor(rt, alloc, caller, "a ^3 + 4 * 2")
        && post(rt, alloc, caller, 5, FIRST, "a") == Ok(1)
        && post(rt, alloc, caller, 5, FIRST, "a") == Err(Refusal::Old { last: 5 })
        && post(rt, alloc, caller, 9, FIRST, "a") == Ok(2)
        && answers(rt, caller, FIRST, 1, 14)
        && answers(rt, caller, FIRST, 2, 14)
        && marks.claims() == 6
}

/// The scripts, and what all have done together. A turn of `go` has 3 steps where it ends in the fault, and 6 where it answers.
const SCRIPTS: &[(Scene, Totals)] = &[
    (
        Scene::NotUnderstood,
        Totals {
            posts: 3,
            edits: 4,
            steps: 12,
        },
    ),
    (
        Scene::Closing,
        Totals {
            posts: 4,
            edits: 2,
            steps: 28,
        },
    ),
    (
        Scene::Numbers,
        Totals {
            posts: 2,
            edits: 2,
            steps: 14,
        },
    ),
];

/// The table behind a function without a contract, so that the proof of a test carries none of it.
fn scripts() -> &'static [(Scene, Totals)] {
    SCRIPTS
}

#[test]
fn by_callers(rt: HostRuntime) -> Result<(), Fail> {
    for (scene, wanted) in scripts() {
        assert!(rt;
            totals(&rt, rt.alloc(), *scene) == Some(Ok(*wanted)),
            "{scene:?}"
        );
    }
    Ok(())
}
