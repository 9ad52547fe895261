//! Workers, and the steps of claims that they take.
use st_guard::caches::Caches;
use st_guard::global_guard::GlobalGuard;
use st_guard::guard::Guard;
use st_guard::switch_guard::SwitchGuard;
use st_turn::body::Stop;
use st_turn::claim::Claim;
use st_turn::sums::SiteSum;
use st_turn::worker::Worker;
use std::alloc::{AllocError, Global};

/// A worker with empty caches, on the heap as images are. Each edit ends what it found before.
pub(crate) fn new_worker(alloc: Global) -> Result<Box<Worker<GlobalGuard>>, AllocError> {
    let worker = Worker::new(Caches::new(alloc, GlobalGuard::new())?);
    Ok(Box::new(alloc, worker)?)
}

/// A worker that keeps, over an edit, what was found for other selectors than that of the edit.
pub(crate) fn new_switching(alloc: Global) -> Result<Box<Worker<SwitchGuard>>, AllocError> {
    let worker = Worker::new(Caches::new(alloc, SwitchGuard::new(alloc))?);
    Ok(Box::new(alloc, worker)?)
}

/// Takes up to this many steps, in a row or one by one.
pub(crate) fn take<G: Guard>(
    alloc: Global,
    worker: &mut Worker<G>,
    claim: &mut Claim,
    limit: u32,
    in_row: bool,
) -> Result<Stop, AllocError> {
    if in_row {
        return worker.run(alloc, claim, limit);
    }
    for _ in 0..limit {
        match worker.step(alloc, claim)? {
            Stop::More => {}
            stop => return Ok(stop),
        }
    }
    Ok(Stop::More)
}

/// How many sends their sites had, the lookup cache had, and walks found.
#[derive(Clone, Copy, PartialEq)]
pub(crate) struct Counts {
    pub by_site: u64,
    pub by_global: u64,
    pub by_walk: u64,
}

impl Counts {
    pub(crate) fn none() -> Counts {
        Counts {
            by_site: 0,
            by_global: 0,
            by_walk: 0,
        }
    }

    /// Whether these are the numbers that a text has.
    pub(crate) fn are(&self, alloc: Global, wanted: &str) -> Result<bool, AllocError> {
        let told = format!(in alloc; "{} {} {}", self.by_site, self.by_global, self.by_walk)?;
        Ok(told.as_str() == wanted)
    }

    pub(crate) fn add(&mut self, sums: &[SiteSum]) {
        for sum in sums {
            self.by_site = self.by_site.wrapping_add(sum.tally.by_site);
            self.by_global = self.by_global.wrapping_add(sum.tally.by_global);
            self.by_walk = self.by_walk.wrapping_add(sum.tally.by_walk);
        }
    }
}
