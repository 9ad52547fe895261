//! A worker: caches, with which it takes the steps of claims.
ghost use Rattle.std.specs.Prelude.{◌≡◌, true, false, List, None, Some, IfSome};
ghost use Rattle.st_classes.specs.declared.edits.Edit.{Edit as EditOf};
ghost use Rattle.st_classes.specs.EditLists.{Begins};
ghost use Rattle.st_guard.specs.Moves.{CachesView, IsEmptied};
ghost use Rattle.st_turn.specs.WorkerSteps.{HasMoved, Runs, StandsAt, Steps};

use crate::body::Stop;
use crate::claim::Claim;
use crate::claim::stepping::run_steps;
use crate::finder::Finder;
use st_classes::token::Token;
use st_guard::caches::Caches;
use st_guard::guard::Guard;
use std::alloc::{AllocError, Global};
use std::marker::Model;

/// Takes the steps of claims, and keeps what it found on the way. Contracts see its caches.
#[derive(Drop)]
pub struct Worker<G: Guard> {
    finder: Finder<G>,
}

impl<G: Guard> Model for Worker<G> {
    ghost use Rattle.st_guard.specs.Moves.{CachesView};

    ghost Value = { CachesView G };

    ghost view = { λ w. w.finder.caches };
}

impl<G: Guard> Worker<G> {
    /// A worker with these caches.
    pub fn new(caches: Caches<G>) -> Worker<G>
        ensures { result ≡ caches }
    {
        Worker {
            finder: Finder { caches, last: None },
        }
    }

    /// Its caches, which are valid at the list of edits that they keep, if they keep one.
    #[inline]
    pub fn caches(&self) -> &Caches<G>
        ensures { result.now ≡ self.now }
    {
        &self.finder.caches
    }

    /// Whether the caches keep no edits but first ones of a version. The edits are compared one by one.
    fn keeps_first(&self, token: &Token) -> bool
        ensures yes { result ≡ true → IfSome self.now.kept (λ k. Begins k token.now) }
        ensures no { result ≡ false → (k : List EditOf) → self.now.kept ≡ Some k → Begins k token.now → ⊥ }
    {
        match self.finder.caches.kept() {
            Some(kept) => kept.shown().begins(token.shown()),
            None => true,
        }
    }

    /// Brings the caches to a version whose edits have those that are kept as a prefix.
    fn move_unchecked(&mut self, token: &Token)
        requires { IfSome self.old.kept (λ k. Begins k token.now) }
        ensures { HasMoved G.count G.floor G.raises self.old self.new token.now }
    {
        let _moved = self.finder.caches.move_unchecked(token);
    }

    /// Brings the caches to any version.
    fn move_to(&mut self, token: &Token)
        ensures { HasMoved G.count G.floor G.raises self.old self.new token.now }
    {
        if !self.keeps_first(token) {
            self.finder.caches.forget();
        }
        self.move_unchecked(token);
    }

    /// Takes one step of a claim, with any caches.
    ///
    /// `More` says that a step was taken; `Ended` that no turn is going on, `Outer` that the next step is an act that the image
    /// does, and `Limit` that the claim can have no more steps: then the claim stays. It also stays for want of memory; then the
    /// caches may have changed. The sends of the claim tell how the caches, moved to its edits, found what a send runs.
    ///
    /// The edits that the caches keep are compared with the claim's one by one, even if they are the same list. If they are not a prefix
    /// of the claim's, the caches are emptied. `step_unchecked` does not compare them.
    pub fn step(&mut self, alloc: Global, claim: &mut Claim) -> Result<Stop, AllocError>
        ensures steps { (moved : CachesView G) × HasMoved G.count G.floor G.raises self.old moved claim.old.edits × Steps G.floor moved claim.old result self.new claim.new }
        ensures stands { StandsAt G.count G.floor self.new claim.new.edits }
        ensures edits { claim.new.edits ≡ claim.old.edits }
    {
        self.move_to(claim.token());
        claim.step(alloc, &mut self.finder)
    }

    /// The same, if the caller knows that the edits which the caches keep are a prefix of the claim's. No edits are compared: if there
    /// are as many as the claim has, the caches are at its version already.
    pub fn step_unchecked(&mut self, alloc: Global, claim: &mut Claim) -> Result<Stop, AllocError>
        requires { IfSome self.old.kept (λ k. Begins k claim.old.edits) }
        ensures steps { (moved : CachesView G) × HasMoved G.count G.floor G.raises self.old moved claim.old.edits × Steps G.floor moved claim.old result self.new claim.new }
        ensures stands { StandsAt G.count G.floor self.new claim.new.edits }
        ensures edits { claim.new.edits ≡ claim.old.edits }
    {
        self.move_unchecked(claim.token());
        claim.step(alloc, &mut self.finder)
    }

    /// Takes steps of a claim, one after the other, until it has taken this many (the answer is `More` then, also for 0), none is next,
    /// or memory was refused. Otherwise as `step`. The edits are compared once, and the caches are moved once.
    pub fn run(&mut self, alloc: Global, claim: &mut Claim, limit: u32) -> Result<Stop, AllocError>
        ensures runs { (moved : CachesView G) × HasMoved G.count G.floor G.raises self.old moved claim.old.edits × Runs G.floor limit moved claim.old result self.new claim.new }
        ensures stands { StandsAt G.count G.floor self.new claim.new.edits }
        ensures edits { claim.new.edits ≡ claim.old.edits }
    {
        self.move_to(claim.token());
        run_steps(alloc, claim, &mut self.finder, limit)
    }

    /// The same, if the caller knows that the edits which the caches keep are a prefix of the claim's. No edits are compared.
    pub fn run_unchecked(
        &mut self,
        alloc: Global,
        claim: &mut Claim,
        limit: u32,
    ) -> Result<Stop, AllocError>
        requires { IfSome self.old.kept (λ k. Begins k claim.old.edits) }
        ensures runs { (moved : CachesView G) × HasMoved G.count G.floor G.raises self.old moved claim.old.edits × Runs G.floor limit moved claim.old result self.new claim.new }
        ensures stands { StandsAt G.count G.floor self.new claim.new.edits }
        ensures edits { claim.new.edits ≡ claim.old.edits }
    {
        self.move_unchecked(claim.token());
        run_steps(alloc, claim, &mut self.finder, limit)
    }

    /// Empties the caches. They keep no list of edits then. No memory is taken.
    pub fn forget(&mut self)
        ensures emptied { IsEmptied (G.floor self.new.guard) self.new.sites self.new.recent self.old.edits }
        ensures edits { self.new.edits ≡ self.old.edits }
        ensures kept { self.new.kept ≡ None }
    {
        self.finder.caches.forget();
    }
}
