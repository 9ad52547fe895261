//! Edits while a claim is out: one that ends it, and one that does not.
use crate::calls::*;
use crate::doors::Marks;
use crate::plays::totals;
use crate::scenes::Scene;
use st_classes::kernel::SMALL_INTEGER;
use st_classes::refusals::Refusal;
use st_classes::values::ClassId;
use st_pool::totals::Totals;
use std::alloc::Global;
use std::sync::Wait;
use std::test::*;
use std::time::Clock;

/// The worker has a claim of a turn that sends `tag` when a method is installed. The turn answers a number, after this many claims,
/// and the caller does nothing more for it: a worker whose claim was refused goes on by itself.
fn edited<C: Calls, R: Wait + Clock>(
    rt: &R,
    alloc: Global,
    caller: &mut C,
    marks: &Marks,
    class: ClassId,
    source: &str,
    number: i64,
    claims: u64,
) -> bool {
    let is_edited = define(rt, alloc, caller, "A") == Ok(1)
        && caller.install(rt, alloc, A, "go ^3 tag") == Ok(2)
        && caller.install(rt, alloc, SMALL_INTEGER, "tag ^1") == Ok(3)
        && caller.create(rt, alloc, A) == Ok(FIRST)
        && post(rt, alloc, caller, 1, FIRST, "go") == Ok(1)
        && marks.await_claims(rt, 1)
        && caller.install(rt, alloc, class, source) == Ok(4);
    marks.tell();
    is_edited && answers(rt, caller, FIRST, 1, number) && marks.claims() == claims
}

/// The method is replaced that the claim sends to: its steps do not count, and the turn is begun once more.
pub fn used_selector<C: Calls, R: Wait + Clock>(
    rt: &R,
    alloc: Global,
    caller: &mut C,
    marks: &Marks,
) -> bool {
    edited(rt, alloc, caller, marks, SMALL_INTEGER, "tag ^2", 2, 2)
}

/// A method is installed that the claim does not send to.
pub fn unused_selector<C: Calls, R: Wait + Clock>(
    rt: &R,
    alloc: Global,
    caller: &mut C,
    marks: &Marks,
) -> bool {
    edited(rt, alloc, caller, marks, A, "bump ^0", 1, 1)
}

const B: ClassId = ClassId(9);

const C: ClassId = ClassId(10);

/// C is first under A and then under B, and each of the two answers a number of its own.
pub fn reparented<C: Calls, R: Wait + Clock>(rt: &R, alloc: Global, caller: &mut C) -> bool {
    define(rt, alloc, caller, "A") == Ok(1)
        && caller.install(rt, alloc, A, "who ^1") == Ok(2)
        && define(rt, alloc, caller, "B") == Ok(3)
        && caller.install(rt, alloc, B, "who ^2") == Ok(4)
        && caller.define(rt, alloc, "C", A) == Ok(5)
        && caller.install(rt, alloc, C, "go ^self who") == Ok(6)
        && caller.create(rt, alloc, C) == Ok(FIRST)
        && post(rt, alloc, caller, 1, FIRST, "go") == Ok(1)
        && answers(rt, caller, FIRST, 1, 1)
        && caller.reparent(rt, alloc, A, C) == Err(Refusal::Cycle)
        && caller.reparent(rt, alloc, C, B) == Ok(7)
        && post(rt, alloc, caller, 2, FIRST, "go") == Ok(2)
        && answers(rt, caller, FIRST, 2, 2)
}

#[test]
fn a_caller_moves_a_class(rt: HostRuntime) -> Result<(), Fail> {
    // each turn has six steps
    let wanted = Totals {
        posts: 2,
        edits: 7,
        steps: 12,
    };
    assert!(rt; totals(&rt, rt.alloc(), Scene::Reparented) == Some(Ok(wanted)));
    Ok(())
}

#[test]
fn a_claim_is_as_old_as_what_it_used(rt: HostRuntime) -> Result<(), Fail> {
    // the turn has six steps, and those of a refused claim are none
    let wanted = Totals {
        posts: 1,
        edits: 4,
        steps: 6,
    };
    for scene in [Scene::UsedSelector, Scene::UnusedSelector] {
        assert!(rt;
            totals(&rt, rt.alloc(), scene) == Some(Ok(wanted)),
            "{scene:?}"
        );
    }
    Ok(())
}
