//! How often the body of each actor was changed.
ghost use Rattle.std.specs.Prelude.{◌≡◌, ◌+◌, ◌<◌, ◌^◌, ◌==◌, ℕ, [], length, if◌then◌else◌, OnOk};
ghost use Rattle.st_image.specs.Changes.{change_count};

use st_classes::values::ActorId;
use std::alloc::{AllocError, Global};
use std::marker::Model;

/// How often the body of each actor was changed, by the actors' numbers. Contracts see a list of numbers; a number past its end is 0.
#[derive(Drop)]
pub(crate) struct Changes {
    counts: Vec<u32>,
}

impl Model for Changes {
    ghost use Rattle.std.specs.Prelude.{ℕ, List};

    ghost Value = { List ℕ };

    ghost view = { λ c. c.counts.items };
}

impl Changes {
    /// No body was changed.
    pub(crate) fn new(alloc: Global) -> Changes
        ensures { result ≡ [] }
    {
        Changes {
            counts: Vec::new(alloc),
        }
    }

    /// A number of actors that covers all whose body was changed.
    pub(crate) fn len(&self) -> usize
        ensures { result ≡ length self.now }
    {
        self.counts.len()
    }

    /// How often the body of the actor at a place was changed.
    pub(crate) fn at(&self, place: usize) -> u32
        ensures { result ≡ change_count self.now place }
    {
        match self.counts.get(place) {
            Some(count) => *count,
            None => 0,
        }
    }

    /// How often the body of an actor was changed.
    pub(crate) fn count(&self, actor: ActorId) -> u32
        ensures { result ≡ change_count self.now actor.0 }
    {
        self.at(actor.0 as usize)
    }

    /// Makes room for the number of an actor. No number changes.
    pub(crate) fn make_room(&mut self, actor: ActorId) -> Result<(), AllocError>
        ensures same { (a : ℕ) → change_count self.new a ≡ change_count self.old a }
        ensures room { OnOk result (actor.0 < length self.new) }
    {
        let wanted = actor.0 as usize + 1;
        if self.counts.len() < wanted {
            self.counts.resize(wanted, 0)?;
        }
        Ok(())
    }

    /// Counts one more change of an actor's body.
    pub(crate) fn raise(&mut self, actor: ActorId)
        requires room { actor.0 < length self.old }
        requires few { change_count self.old actor.0 + 1 < 2 ^ 32 }
        ensures { (a : ℕ) → change_count self.new a ≡ change_count self.old a + (if a == actor.0 then 1 else 0) }
    {
        self.counts[actor.0 as usize] += 1;
    }
}
