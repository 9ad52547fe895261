//! Sums of a claim's sends: one for each site, and how its sends were found. That an image counts by them is seen in tests/sends.txt.
use crate::images::{FIRST, checkout, image_sent_go, release};
use crate::workers::{Counts, new_worker, take};
use st_classes::refusals::Refusal;
use std::alloc::Global;
use std::test::*;

/// The lines of methods, each with its class; how many sums are made of what an actor of class A sends when it runs `go`, one for each site;
/// and how many of the sends their sites had, the lookup cache had, and walks found.
const ROWS: &[(&str, usize, &str)] = &[
    ("A go ^self", 0, "0 0 0"),
    (
        "A go | n | n := 0. [n < 16] whileTrue: [n := n + 1]",
        2,
        "31 0 2",
    ),
    // 16 sites, as many as there is room for at first
    (
        "A go | n | n := 0. [n < 40] whileTrue: [n := n + 1 + 0 + 0 + 0 + 0 + 0 + 0 + 0 + 0 + 0 + 0 + 0 + 0 + 0 + 0]",
        16,
        "625 14 2",
    ),
    // 17 sites
    (
        "A go | n | n := 0. [n < 40] whileTrue: [n := n + 1 + 0 + 0 + 0 + 0 + 0 + 0 + 0 + 0 + 0 + 0 + 0 + 0 + 0 + 0 + 0]",
        17,
        "664 15 2",
    ),
    // five classes at the site of `tag`
    (
        r"SmallInteger tag ^1
True tag ^2
UndefinedObject tag ^4
Symbol tag ^8
A tag ^16
A a ^s tag
A go | n | n := 0. [n < 9] whileTrue: [n := n + 1. s := n. self a. s := true. self a. s := nil. self a. s := #x. self a. s := self. self a]",
        8,
        "57 44 8",
    ),
    // Two sites in one bucket, sent to in turn: place 2 of a method, and place 13 of the one that is installed three edits later.
    (
        r"A a ^1 + 2
A c ^1
A d ^1
A go | n | n := 0. [n < 9] whileTrue: [n := n + 1. self a]",
        4,
        "33 1 3",
    ),
];

/// The table behind a function without a contract, so that no proof carries anything of it.
fn rows() -> &'static [(&'static str, usize, &'static str)] {
    ROWS
}

/// How many sums there are in a claim of the whole turn, and how its sends were found.
fn sums_of(alloc: Global, methods: &str) -> Result<(usize, Counts), Refusal> {
    let mut image = image_sent_go(alloc, methods)?;
    let mut worker = new_worker(alloc)?;
    let mut claim = checkout(alloc, &mut image, FIRST)?;
    let _stop = take(alloc, &mut worker, &mut claim, 4000, true)?;
    let sums = claim.sends().sums().len();
    let mut counts = Counts::none();
    counts.add(claim.sends().sums());
    release(&mut image, claim);
    Ok((sums, counts))
}

#[test]
fn sends_are_summed_by_sites(rt: HostRuntime) -> Result<(), Fail> {
    for (methods, wanted, found) in rows() {
        let (sums, counts) = sums_of(rt.alloc(), methods)?;
        assert!(rt;
            sums == *wanted && counts.are(rt.alloc(), found)?,
            "{methods}: {sums}"
        );
    }
    Ok(())
}
