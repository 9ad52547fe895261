//! A worker of a pool: one that knows an image whose edits its caches follow.
ghost use Rattle.std.specs.Prelude.{◌≡◌, true};
ghost use Rattle.std.specs.Option.{IfSome};
ghost use Rattle.st_classes.specs.EditLists.{Begins};
ghost use Rattle.st_guard.specs.Moves.{CachesView};
ghost use Rattle.st_turn.specs.WorkerSteps.{HasMoved, Runs, StandsAt};

use crate::known_prefix::{KnownPrefix, again, precedes};
use crate::naming::Naming;
use crate::pool_claim::PoolClaim;
use st_guard::guard::Guard;
use st_turn::body::Stop;
use st_turn::claim::Claim;
use st_turn::worker::Worker;
use std::alloc::{AllocError, Global};
use std::marker::Model;

/// A worker, and, if they are known, the images that were seen up to one whose class table its caches are at. Contracts see its
/// caches.
#[derive(Drop)]
pub struct PoolWorker<K: Naming, G: Guard> {
    worker: Worker<G>,
    seen: Option<KnownPrefix<K>>,
}

impl<K: Naming, G: Guard> Model for PoolWorker<K, G> {
    ghost use Rattle.std.specs.Option.{IfSome};
    ghost use Rattle.st_guard.specs.Moves.{CachesView};
    ghost use Rattle.st_pool.specs.Seen.{Follows};

    ghost Value = { CachesView G };

    ghost view = { λ h. h.worker };

    ghost invariant = { λ h. IfSome h.seen (λ l. Follows l h.worker) };
}

/// Takes steps of a claim. No edits are compared if the caches' edits are known to be a prefix of the claim's.
fn run_with<G: Guard>(
    worker: &mut Worker<G>,
    alloc: Global,
    claim: &mut Claim,
    limit: u32,
    is_known: bool,
) -> Result<Stop, AllocError>
    requires { is_known ≡ true → IfSome worker.old.kept (λ k. Begins k claim.old.edits) }
    ensures runs { (moved : CachesView G) × HasMoved G.count G.floor G.raises worker.old moved claim.old.edits × Runs G.floor limit moved claim.old result worker.new claim.new }
    ensures stands { StandsAt G.count G.floor worker.new claim.new.edits }
    ensures edits { claim.new.edits ≡ claim.old.edits }
{
    if is_known {
        return worker.run_unchecked(alloc, claim, limit);
    }
    worker.run(alloc, claim, limit)
}

impl<K: Naming, G: Guard> PoolWorker<K, G> {
    /// A worker with any caches.
    pub fn new(worker: Worker<G>) -> PoolWorker<K, G>
        ensures { result ≡ worker }
    {
        PoolWorker { worker, seen: None }
    }

    /// Takes steps of a claim, as `Worker::run`. If the worker ran a claim of the same pool before, no edits are compared.
    pub fn run(
        &mut self,
        alloc: Global,
        pool_claim: &mut PoolClaim<K>,
        limit: u32,
    ) -> Result<Stop, AllocError>
        ensures runs { (moved : CachesView G) × HasMoved G.count G.floor G.raises self.old moved pool_claim.old.edits × Runs G.floor limit moved pool_claim.old result self.new pool_claim.new }
        ensures stands { StandsAt G.count G.floor self.new pool_claim.new.edits }
        ensures edits { pool_claim.new.edits ≡ pool_claim.old.edits }
    {
        let PoolWorker { worker, seen } = self;
        let PoolClaim {
            claim,
            seen: at_checkout,
        } = pool_claim;
        let is_known = precedes(seen, at_checkout);
        let stop = run_with(worker, alloc, claim, limit, is_known);
        *seen = again(at_checkout);
        stop
    }
}
