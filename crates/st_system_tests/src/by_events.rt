//! Of two claims on one body one counts; and a claim ends with an edit of what it sent, and with no other edit. It is so with mailboxes and
//! guards of both kinds.
use crate::events::*;
use crate::workers::{global_workers, switch_workers};
use st_classes::refusals::Refusal;
use st_guard::guard::Guard;
use st_mailbox::list_box::ListBox;
use st_mailbox::ring_box::RingBox;
use st_turn::worker::Worker;
use std::alloc::Global;
use std::test::*;

/// Each of two workers has a claim of the actor and takes three steps on it. The first to commit has taken them.
const TWO_CLAIMS: Rows = &[
    (Work::Checkout(0), DONE),
    (Work::Checkout(1), DONE),
    (Work::Local(0), STEPPED),
    (Work::Local(0), STEPPED),
    (Work::Local(0), STEPPED),
    (Work::Local(1), STEPPED),
    (Work::Local(1), STEPPED),
    (Work::Local(1), STEPPED),
    (Work::Commit(0), THREE),
    (Work::Commit(1), Err(Refusal::Changed)),
];

/// Two claims; a claim of three steps before an edit of the message that they sent; and one before an edit of another.
const SCENES: &[Scene] = &[
    (MOST, &[POSTED, TWO_CLAIMS], 7, End::Ran(3)),
    (
        MOST,
        &[POSTED, THREE_STEPS, TAG_EDITED, STALE_CLAIM],
        7,
        End::Other,
    ),
    (
        MOST,
        &[POSTED, THREE_STEPS, OTHER_EDITED, SURVIVING_CLAIM],
        8,
        End::Other,
    ),
];

/// The table behind a function without a contract, so that the proof of a test carries none of it.
fn scenes() -> &'static [Scene] {
    SCENES
}

/// Whether a scene goes as it has to with mailboxes of both kinds.
fn is_well_in_both<G: Guard>(
    alloc: Global,
    one: Vec<Worker<G>>,
    other: Vec<Worker<G>>,
    scene: Scene,
) -> Result<bool, Refusal> {
    Ok(is_well::<ListBox, G>(alloc, one, scene)? && is_well::<RingBox, G>(alloc, other, scene)?)
}

/// The same with guards of both kinds too.
fn is_well_in_all(alloc: Global, scene: Scene) -> Result<bool, Refusal> {
    let (one, other) = (global_workers(alloc, 2)?, global_workers(alloc, 2)?);
    let is_well = is_well_in_both(alloc, one, other, scene)?;
    let (one, other) = (switch_workers(alloc, 2)?, switch_workers(alloc, 2)?);
    Ok(is_well && is_well_in_both(alloc, one, other, scene)?)
}

#[test]
fn by_events(rt: HostRuntime) -> Result<(), Fail> {
    for (place, scene) in scenes().iter().enumerate() {
        assert!(rt; is_well_in_all(rt.alloc(), *scene)?, "scene {place}");
    }
    Ok(())
}
