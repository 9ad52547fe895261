//! Workers that go from a claim to one at other edits: on, back to fewer, and over to others that are as many.
ghost use Rattle.std.specs.Prelude.{◌≡◌, true, IfSome};
ghost use Rattle.st_classes.specs.EditLists.{Begins};

use crate::agree::Pair;
use crate::images::*;
use crate::workers::{Counts, new_switching, new_worker};
use st_classes::kernel::OBJECT;
use st_classes::refusals::Refusal;
use st_classes::values::Value;
use st_guard::guard::Guard;
use st_guard::switch_guard::SwitchGuard;
use st_turn::body::{Outcome, Stop};
use st_turn::claim::Claim;
use st_turn::worker::Worker;
use std::alloc::{AllocError, Global};
use std::test::*;

const FEW: &str = r"A go ^B new tag
A tag ^1";

const MORE: &str = r"A go ^B new tag
A tag ^1
B tag ^2";

/// As many as `MORE`.
const OTHERS: &str = r"A go ^B new tag
A tag ^1
C tag ^3";

/// The edits to which workers come, one after the other; what the turn of `go` answers there; and how many of its two sends, of `new` and
/// `tag`, their sites had, with a worker for which each edit ends what was found before, and with one that keeps what is for other
/// selectors. Walks found the others.
const WAY: &[(&str, i64, u64, u64)] = &[
    (MORE, 2, 0, 0),
    // back
    (FEW, 1, 0, 0),
    // on
    (MORE, 2, 0, 1),
    // nothing is forgotten where the edits are the same
    (MORE, 2, 2, 2),
    // over, and back over
    (OTHERS, 1, 0, 0),
    (MORE, 2, 0, 0),
    // back, on to the others, and over
    (FEW, 1, 0, 0),
    (OTHERS, 1, 0, 1),
    (MORE, 2, 0, 0),
];

/// The table stands behind a function without a contract, so that no proof carries anything of it.
fn way() -> &'static [(&'static str, i64, u64, u64)] {
    WAY
}

fn counts_of(by_site: u64, by_walk: u64) -> Counts {
    Counts {
        by_site,
        by_global: 0,
        by_walk,
    }
}

/// Whether two workers, of which one takes rows of steps and the other single ones, do the same in the turn in an image with these
/// methods, which answers so, and of whose sends the sites have so many.
fn goes_on<G: Guard>(
    alloc: Global,
    pair: &mut Pair<G>,
    methods: &str,
    first: u32,
    answer: i64,
    by_site: u64,
) -> Result<bool, Refusal> {
    let mut image = image_sent_go(alloc, methods)?;
    pair.counts = counts_of(0, 0);
    let is_same = pair.finish(alloc, &mut image, first)?;
    let ended = outcome(&image, 1)?;
    Ok(
        is_same
            && ended == Outcome::Answer(Value::Int(answer))
            && pair.counts == counts_of(by_site, 2u64.wrapping_sub(by_site)),
    )
}

/// The first place of the way at which workers do otherwise. They have quanta of these many steps, and then of one more each time.
fn first_wrong(alloc: Global, first: u32) -> Result<Option<usize>, Refusal> {
    let mut plain = Pair {
        runner: new_worker(alloc)?,
        stepper: new_worker(alloc)?,
        counts: counts_of(0, 0),
    };
    let mut keeping = Pair {
        runner: new_switching(alloc)?,
        stepper: new_switching(alloc)?,
        counts: counts_of(0, 0),
    };
    for (place, (methods, answer, ended, kept)) in way().iter().enumerate() {
        if !goes_on(alloc, &mut plain, methods, first, *answer, *ended)?
            || !goes_on(alloc, &mut keeping, methods, first, *answer, *kept)?
        {
            return Ok(Some(place));
        }
    }
    Ok(None)
}

#[test]
fn workers_take_any_claim(rt: HostRuntime) -> Result<(), Fail> {
    for first in [0, 100] {
        assert_eq!(rt; first_wrong(rt.alloc(), first)?, None, "from {first}");
    }
    Ok(())
}

/// Whether the edits that a worker's caches keep begin a claim's.
fn keeps_first(worker: &Worker<SwitchGuard>, claim: &Claim) -> bool
    ensures { result ≡ true → IfSome worker.now.kept (λ k. Begins k claim.now.edits) }
{
    match worker.caches().kept() {
        Some(kept) => kept.shown().begins(claim.token().shown()),
        None => true,
    }
}

/// Takes the steps of a claim by a caller who knows that its edits go on from the worker's, in a row or one by one. The answer is whether
/// the turn ends.
fn take_on(
    alloc: Global,
    worker: &mut Worker<SwitchGuard>,
    claim: &mut Claim,
    in_row: bool,
) -> Result<bool, AllocError> {
    for _ in 0..100 {
        if !keeps_first(worker, claim) {
            return Ok(false);
        }
        let stop = if in_row {
            worker.run_unchecked(alloc, claim, 100)?
        } else {
            worker.step_unchecked(alloc, claim)?
        };
        if stop != Stop::More {
            return Ok(stop == Stop::Ended);
        }
    }
    Ok(false)
}

/// How the sends of the next turn are found, if it ends.
fn next_counts(
    alloc: Global,
    image: &mut Image,
    worker: &mut Worker<SwitchGuard>,
    in_row: bool,
) -> Result<Counts, Refusal> {
    let mut claim = checkout(alloc, image, FIRST)?;
    let ended = take_on(alloc, worker, &mut claim, in_row);
    let mut counts = counts_of(0, 0);
    if ended == Ok(true) {
        counts.add(claim.sends().sums());
    }
    commit(alloc, image, claim)?;
    Ok(counts)
}

/// An edit of each kind, for what no turn sends.
fn other_edit(alloc: Global, image: &mut Image, kind: u64) -> Result<u32, Refusal> {
    match kind {
        0 => define(alloc, image, "K", OBJECT, ""),
        1 => edit(alloc, image, "A other ^0"),
        _ => edit(alloc, image, "- A other"),
    }
}

/// Whether a worker finds at their sites, after an edit of each kind, what it found before.
fn keeps_over_edits(alloc: Global, in_row: bool) -> Result<bool, Refusal> {
    let mut image = image_sent_go(alloc, MORE)?;
    let mut worker = new_switching(alloc)?;
    let mut keeps = next_counts(alloc, &mut image, &mut worker, in_row)? == counts_of(0, 2);
    for kind in 0..3 {
        other_edit(alloc, &mut image, kind)?;
        post_go(alloc, &mut image, kind + 2)?;
        let counts = next_counts(alloc, &mut image, &mut worker, in_row)?;
        keeps = keeps && counts == counts_of(2, 0);
    }
    Ok(keeps)
}

#[test]
fn what_is_known_to_go_on_is_kept(rt: HostRuntime) -> Result<(), Fail> {
    for in_row in [true, false] {
        assert!(rt; keeps_over_edits(rt.alloc(), in_row)?, "in a row: {in_row}");
    }
    Ok(())
}
