//! Quanta that are taken in three ways and compared: as a row of steps, one step after the other, and by plain steps. How the turns of
//! programs end, and how their sends are found where caches keep what an edit leaves, is counted in tests/sends.txt, and where rows end, in
//! tests/rows.txt.
use crate::images::*;
use crate::plain::plain_steps;
use crate::workers::{Counts, new_worker, take};
use st_classes::refusals::Refusal;
use st_classes::values::ActorId;
use st_guard::global_guard::GlobalGuard;
use st_guard::guard::Guard;
use st_turn::body::Stop;
use st_turn::claim::Claim;
use st_turn::sums::SiteSum;
use st_turn::worker::Worker;
use std::alloc::{AllocError, Global};
use std::test::*;

/// A worker that takes rows of steps, one that takes single steps, and how the sends of both were found.
#[derive(Drop)]
pub(crate) struct Pair<G: Guard> {
    pub runner: Box<Worker<G>>,
    pub stepper: Box<Worker<G>>,
    pub counts: Counts,
}

/// Whether the same was sent, at each site, was found so, and left the site so.
fn are_same(some: &[SiteSum], others: &[SiteSum]) -> bool {
    for (one, other) in some.iter().zip(others) {
        if one.site != other.site || one.tally != other.tally {
            return false;
        }
    }
    some.len() == others.len()
}

impl<G: Guard> Pair<G> {
    /// Whether up to this many steps of two claims of an actor are the same: what ends them, where they lead, and their sends.
    fn take(
        &mut self,
        alloc: Global,
        row: &mut Claim,
        single: &mut Claim,
        limit: u32,
    ) -> Result<bool, AllocError> {
        let plain = plain_steps(alloc, row, limit)?;
        // in two rows, where the first one ends by its limit
        let first = limit / 3;
        let mut ended = take(alloc, &mut self.runner, row, first, true)?;
        if ended == Stop::More {
            ended = take(alloc, &mut self.runner, row, limit - first, true)?;
        }
        let stopped = take(alloc, &mut self.stepper, single, limit, false)?;
        self.counts.add(row.sends().sums());
        Ok(
            ended == plain.stop
                && stopped == plain.stop
                && plain.lead_to(row)
                && plain.lead_to(single)
                && are_same(row.sends().sums(), single.sends().sums()),
        )
    }

    /// The same of a quantum of an actor. The row is committed.
    fn take_quantum(
        &mut self,
        alloc: Global,
        image: &mut Image,
        actor: ActorId,
        limit: u32,
    ) -> Result<bool, Refusal> {
        let mut row = checkout(alloc, image, actor)?;
        let mut single = checkout(alloc, image, actor)?;
        let is_same = self.take(alloc, &mut row, &mut single, limit);
        release(image, single);
        commit(alloc, image, row)?;
        Ok(is_same?)
    }

    /// The same of all quanta until no actor is ready: first one of so many steps, and then one of one step more each time.
    pub(crate) fn finish(
        &mut self,
        alloc: Global,
        image: &mut Image,
        first: u32,
    ) -> Result<bool, Refusal> {
        for limit in first..first.saturating_add(80) {
            let Some(actor) = next_ready(image) else {
                return Ok(true);
            };
            if !self.take_quantum(alloc, image, actor, limit)? {
                return Ok(false);
            }
        }
        Ok(false)
    }
}

/// Programs, whose lines are done in turn: edits of methods; `=`, a turn of `go`, with how many of its sends their sites had, the lookup cache
/// had, and walks found, where that is said; `~`, the first twelve steps of one; and `.`, the rest of it. Each edit ends what was found before.
const PROGRAMS: &[&str] = &[
    r"A go ^0 - 9223372036854775807 - 1 // -1
= 0 1 2",
    r"A go ^3 < nil
= 0 0 1
A go ^7 \\ 0
= 0 0 1
A go ^3 ifTrue: [1]
= 0 0 0",
    r"A go | n i | n := 0. i := 0. [i < 3] whileTrue: [i < 1 ifTrue: [n := n + 1]. i > 1 ifTrue: [n := n + 2]. i <= 1 ifTrue: [n := n + 4]. i >= 1 ifTrue: [n := n + 8]. i = 1 ifTrue: [n := n + 16]. i == 1 ifTrue: [n := n + 32]. i := i + 1]. ^n
= 19 7 7",
    r"SmallInteger tag ^1
True tag ^2
UndefinedObject tag ^4
Symbol tag ^8
A tag ^16
ActorRef tag ^32
A ask: x ^x tag
A go | n i | n := 0. i := 0. [i < 2] whileTrue: [n := n + (self ask: i) + (self ask: true) + (self ask: nil) + (self ask: #x) + (self ask: self) + (self ask: thisActor). i := i + 1]. ^n
=
=",
    r"A down: n n = 0 ifTrue: [^0]. ^(self down: n - 1) + 1
A go ^self down: 127
= 378 1 3",
    r"A who ^1
B who ^super who + 10
C who ^super who + 100
A go | i n | i := 0. n := 0. [i < 3] whileTrue: [n := n + C new who. i := i + 1]. ^n
= 19 3 6
~
B who ^super who + 20
.
=",
    r"A doesNotUnderstand: m ^m == #zork:with:
A go s := 5. ^self zork: 1 with: s
= 0 0 2",
    r"A tag ^1
B tag ^2
A go | b i | b := B new. i := 0. [i < 3] whileTrue: [i := i + b tag]. ^i
= 4 0 4
- B tag
= 7 0 4
- A tag
= 0 0 3
B tag ^5
= 1 0 4
= 5 0 0
~
A go ^0
- B tag
A tag ^1
.
=",
    r"A go | i | i := 0. [i = 3] whileFalse: [i := i + 1]. ^i
= 5 0 2
SmallInteger = x ^self > 0
= 2 0 3
- SmallInteger =
= 5 0 2",
    r"A go | i | i := 0. [i < 3] whileTrue: [self zork. i := i + 1]. ^i
A doesNotUnderstand: m ^m
~
A doesNotUnderstand: m ^nil
.
=",
    r"A go ^A newActor; newActor; new
=
A go (thisActor post: #zork) ifTrue: [thisActor close]
=",
];

/// The table stands behind a function without a contract, so that no proof carries anything of it.
fn programs() -> &'static [&'static str] {
    PROGRAMS
}

fn new_pair(alloc: Global) -> Result<Pair<GlobalGuard>, AllocError> {
    Ok(Pair {
        runner: new_worker(alloc)?,
        stepper: new_worker(alloc)?,
        counts: Counts::none(),
    })
}

/// Takes the first twelve steps of a turn, or a turn, or what is left of one, and says whether the three ways are the same, and sends were
/// found as it is said.
fn is_taken(
    alloc: Global,
    pair: &mut Pair<GlobalGuard>,
    image: &mut Image,
    line: &str,
    seq: u64,
) -> Result<bool, Refusal> {
    if line != "." {
        post_go(alloc, image, seq)?;
    }
    if line == "~" {
        return pair.take_quantum(alloc, image, FIRST, 12);
    }
    pair.counts = Counts::none();
    let is_same = pair.finish(alloc, image, 0)?;
    match line.strip_prefix("= ") {
        Some(wanted) => Ok(is_same && pair.counts.are(alloc, wanted)?),
        None => Ok(is_same),
    }
}

/// The first line of a program with whose turn the three ways differ, or whose sends were found otherwise.
fn first_wrong(alloc: Global, program: &str) -> Result<Option<usize>, Refusal> {
    let mut image = new_image_of_classes(alloc)?;
    let mut pair = new_pair(alloc)?;
    for (place, line) in program.lines().enumerate() {
        if !line.starts_with(&['=', '~', '.']) {
            edit(alloc, &mut image, line)?;
            continue;
        }
        if !is_taken(alloc, &mut pair, &mut image, line, place as u64)? {
            return Ok(Some(place));
        }
    }
    Ok(None)
}

#[test]
fn rows_and_single_steps_are_plain_steps(rt: HostRuntime) -> Result<(), Fail> {
    for program in programs() {
        assert_eq!(rt; first_wrong(rt.alloc(), program)?, None, "{program}");
    }
    Ok(())
}
