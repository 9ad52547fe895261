//! Steps for which memory is refused: the claim stands after its last whole step, and goes on from there. Memory is refused where this
//! runs with an allocation that fails, as `tools/refused-growth` has it for each in turn.
use crate::images::{FIRST, checkout, commit, image_sent_go, release};
use crate::plain::plain_steps;
use crate::workers::{new_worker, take};
use st_classes::refusals::Refusal;
use st_turn::body::Stop;
use st_turn::claim::Claim;
use std::alloc::{AllocError, Global};
use std::test::*;

/// Methods whose turn makes frames, objects and sends of all kinds.
const METHODS: &str = r"A go ^(self down: 5) + C new up
A down: n ^n = 0 ifTrue: [0] ifFalse: [(self down: n - 1) + self a]
A a ^A new b isNil
A b ^self missing
A up ^1
C up ^super up + 1
True doesNotUnderstand: x ^1
A doesNotUnderstand: x ^nil
True tag ^1";

/// More steps than the turn has.
const MOST: u32 = 1000;

/// Whether a claim stands where as many plain steps lead to from where another one stands, which has taken none.
fn is_whole(alloc: Global, claim: &Claim, fresh: &Claim) -> bool {
    for _ in 0..2 {
        if let Ok(plain) = plain_steps(alloc, fresh, claim.steps()) {
            return plain.lead_to(claim);
        }
    }
    false
}

/// Whether a claim's steps are taken to the end, and are whole where no memory was left and in the end.
fn ends_whole(
    alloc: Global,
    claim: &mut Claim,
    fresh: &Claim,
    in_row: bool,
) -> Result<bool, AllocError> {
    let mut worker = new_worker(alloc)?;
    let first = take(alloc, &mut worker, claim, MOST, in_row);
    let stood_whole = is_whole(alloc, claim, fresh);
    let stop = match first {
        Err(AllocError) => take(alloc, &mut worker, claim, MOST, in_row),
        stop => stop,
    };
    Ok(stood_whole && stop == Ok(Stop::Ended) && is_whole(alloc, claim, fresh))
}

/// How many steps of the turn are committed, which are those of plain steps.
fn committed(alloc: Global, in_row: bool) -> Result<u32, Refusal> {
    let mut image = image_sent_go(alloc, METHODS)?;
    let fresh = checkout(alloc, &mut image, FIRST)?;
    let mut claim = checkout(alloc, &mut image, FIRST)?;
    let ended = ends_whole(alloc, &mut claim, &fresh, in_row);
    release(&mut image, fresh);
    if ended? {
        return commit(alloc, &mut image, claim);
    }
    Err(Refusal::Changed)
}

#[test]
fn steps_are_whole(rt: HostRuntime) -> Result<(), Fail> {
    for in_row in [true, false] {
        let steps = committed(rt.alloc(), in_row)?;
        assert!(rt; steps > 50, "in a row: {in_row}: {steps}");
    }
    Ok(())
}
