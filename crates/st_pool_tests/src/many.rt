//! Callers that are given out one after another.
use crate::plays::totals;
use crate::pools::Stage;
use crate::scenes::Scene;
use st_classes::refusals::Refusal;
use st_pool::naming::Naming;
use std::alloc::Global;
use std::sync::Wait;
use std::test::*;

/// As many callers as two bytes could not count, and more. What a caller that is let go has done is lost.
pub fn many_callers<K: Naming, R: Wait>(rt: &R, alloc: Global, stage: &Stage<K>) -> bool {
    for _ in 0..70_000 {
        if stage.shared.caller(rt, alloc).is_err() {
            return false;
        }
    }
    true
}

/// All are given out, and settling sees that their shares are missing.
#[test]
fn callers_are_many(rt: HostRuntime) -> Result<(), Fail> {
    let ended = totals(&rt, rt.alloc(), Scene::ManyCallers);
    assert!(rt; ended == Some(Err(Refusal::BadArguments)));
    Ok(())
}
