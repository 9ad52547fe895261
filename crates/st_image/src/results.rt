//! The newest results.
ghost use Rattle.std.specs.Prelude.{◌≡◌, ◌<◌, ◌≤◌, ◌+◌, ◌-◌, ◌^◌, ◌++◌, ◌∷◌, [], length, None, slice_get, OnOk, OnErr, IfOk};
ghost use Rattle.std.specs.Option.{option_copied};
ghost use Rattle.st_image.specs.NewestResults.{HasRoom, kept_in, kept_of, kept_result, newest};
ghost use Rattle.st_image.specs.Parts.{result_of};

use circular_buffer::HeapCircularBuffer;
use st_classes::refusals::Refusal;
use st_turn::body::{Outcome, Phase};
use std::alloc::{AllocError, Global};
use std::marker::Model;

/// How many results are kept.
const KEPT: usize = 64;

/// The newest 64 results, and how many there were.
#[derive(Drop)]
pub(crate) struct Results {
    newest: HeapCircularBuffer<Outcome>,
    count: u64,
}

impl Model for Results {
    ghost use Rattle.std.specs.Prelude.{◌≤◌, length};
    ghost use Rattle.st_turn.specs.declared.body.Outcome.{Outcome as OutcomeOf};
    ghost use Rattle.st_image.specs.NewestResults.{Newest};

    ghost Value = { Newest OutcomeOf };

    ghost view = { λ r. record { items = r.newest.items; count = r.count; room = r.newest.capacity } };

    ghost invariant = { λ r. (r.newest.capacity ≤ 64) × (length r.newest.items ≤ r.newest.capacity) × (length r.newest.items ≤ r.count) };
}

impl Results {
    /// No results.
    pub(crate) fn new(alloc: Global) -> Result<Results, AllocError>
        ensures { IfOk result (λ r. r ≡ record { items = []; count = 0; room = 0 }) }
    {
        Ok(Results {
            newest: HeapCircularBuffer::with_capacity(alloc, 0)?,
            count: 0,
        })
    }

    /// The result of the turn that a body has ended, if it has ended one.
    pub(crate) fn of_phase(alloc: Global, phase: &Phase) -> Result<Results, AllocError>
        ensures { IfOk result (λ r. kept_in r ≡ kept_of (result_of phase.now)) }
    {
        let mut results = Results::new(alloc)?;
        if let Phase::Done(outcome) = phase {
            results.reserve()?;
            results.push(*outcome);
        }
        Ok(results)
    }

    /// The result with a number, from 0: `Pending` if it has not come yet, `Expired` if it is no longer kept.
    pub(crate) fn outcome(&self, number: u64) -> Result<Outcome, Refusal>
        ensures { result ≡ kept_result (record { items = self.now.items; count = self.now.count }) number }
    {
        if self.count > 64 && number < self.count - 64 {
            return Err(Refusal::Expired);
        }
        let first = if self.count > 64 { self.count - 64 } else { 0 };
        match self.newest.get((number - first) as usize) {
            Some(outcome) => Ok(*outcome),
            None => Err(Refusal::Pending),
        }
    }

    /// How many there were.
    pub(crate) fn count(&self) -> u64
        ensures { result ≡ self.now.count }
    {
        self.count
    }

    /// Makes room for one more.
    pub(crate) fn reserve(&mut self) -> Result<(), AllocError>
        ensures items { self.new.items ≡ self.old.items }
        ensures count { self.new.count ≡ self.old.count }
        ensures room { OnOk result (HasRoom self.new) }
    {
        let capacity = self.newest.capacity();
        if self.newest.len() == capacity && capacity < KEPT {
            self.newest.resize(if capacity < 4 { 4 } else { KEPT })?;
        }
        Ok(())
    }

    /// Appends a result. The first of 65 goes.
    pub(crate) fn push(&mut self, outcome: Outcome)
        requires room { HasRoom self.old }
        requires few { self.old.count < 2 ^ 63 }
        ensures items { self.new.items ≡ newest (self.old.items ++ outcome ∷ []) }
        ensures count { self.new.count ≡ self.old.count + 1 }
    {
        self.newest.push_back(outcome);
        self.count += 1;
    }
}
