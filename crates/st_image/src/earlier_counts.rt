//! What was counted in an image before its base.
ghost use Rattle.std.specs.Prelude.{◌≡◌, ◌+◌, ◌<◌, ◌≤◌, ◌^◌, ℕ, length, IfOk};
ghost use Rattle.st_image.specs.Changes.{change_count};
ghost use Rattle.st_image.specs.EarlierCounts.{counted_earlier};

use crate::changes::Changes;
use crate::counts::Counts;
use st_classes::values::ActorId;
use std::alloc::{AllocError, Global};
use std::marker::Model;

/// What was counted in an image before the world that it began with.
#[derive(Drop)]
pub(crate) struct EarlierCounts {
    /// How often each actor's body was changed, by the actors' numbers.
    changes: Vec<u64>,
    edits: u32,
    counts: Counts,
}

impl Model for EarlierCounts {
    ghost use Rattle.st_image.specs.EarlierCounts.{EarlierCounts as EarlierOf};

    ghost Value = { EarlierOf };

    ghost view = { λ e. record { changes = e.changes.items; edits = e.edits; posts = e.counts.posts; steps = e.counts.steps } };
}

impl EarlierCounts {
    /// This many posts and steps were counted, and nothing else.
    pub(crate) fn counted(alloc: Global, counts: Counts) -> EarlierCounts
        ensures { result ≡ counted_earlier counts }
    {
        EarlierCounts {
            changes: Vec::new(alloc),
            edits: 0,
            counts,
        }
    }

    /// How often the body of an actor was changed.
    pub(crate) fn changes(&self, actor: ActorId) -> u64
        ensures { result ≡ change_count self.now.changes actor.0 }
    {
        self.changed_at(actor.0 as usize)
    }

    /// How many edits there were.
    pub(crate) fn edits(&self) -> u32
        ensures { result ≡ self.now.edits }
    {
        self.edits
    }

    /// How many posts and steps there were.
    pub(crate) fn counts(&self) -> Counts
        ensures posts { result.posts ≡ self.now.posts }
        ensures steps { result.steps ≡ self.now.steps }
    {
        self.counts
    }

    /// The same with these changes added, this many edits in all, and these counts in all.
    pub(crate) fn with(
        &self,
        alloc: Global,
        changes: &Changes,
        edits: u32,
        counts: Counts,
    ) -> Result<EarlierCounts, AllocError>
        requires { (a : ℕ) → change_count self.now.changes a + change_count changes.now a < 2 ^ 64 }
        ensures changes { IfOk result (λ e. (a : ℕ) → change_count e.changes a ≡ change_count self.now.changes a + change_count changes.now a) }
        ensures edits { IfOk result (λ e. e.edits ≡ edits) }
        ensures posts { IfOk result (λ e. e.posts ≡ counts.posts) }
        ensures steps { IfOk result (λ e. e.steps ≡ counts.steps) }
    {
        let mut sums = Vec::new(alloc);
        let actors = self.actors_with(changes);
        for actor in 0..actors {
            sums.push(self.changed_at(actor) + u64::from(changes.at(actor)))?;
        }
        Ok(EarlierCounts {
            changes: sums,
            edits,
            counts,
        })
    }

    /// A number of actors that covers all whose body was changed, before or by these changes.
    fn actors_with(&self, changes: &Changes) -> usize
        ensures before { length self.now.changes ≤ result }
        ensures since { length changes.now ≤ result }
    {
        if self.changes.len() < changes.len() {
            changes.len()
        } else {
            self.changes.len()
        }
    }

    /// How often the body of the actor at a place was changed.
    fn changed_at(&self, place: usize) -> u64
        ensures { result ≡ change_count self.now.changes place }
    {
        match self.changes.get(place) {
            Some(count) => *count,
            None => 0,
        }
    }
}
