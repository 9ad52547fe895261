//! The world that an image began with.
ghost use Rattle.std.specs.Prelude.{◌≡◌, ◌++◌, [], ◌∷◌, IfOk, OnOk, OnErr, slice_get};
ghost use Rattle.st_image.specs.Parts.{actor_of, world_of_parts};
ghost use Rattle.st_image.specs.WorldInvariant.{first_of_phase, first_turn as first_turn_of};

use crate::actor_part::ActorPart;
use st_classes::token::Token;
use st_classes::values::ActorId;
use st_turn::body::Phase;
use st_turn::ghost_list::GhostList;
use std::alloc::{AllocError, Global};
use std::marker::Model;

/// The class table, the actors and the clients with which an image began. Contracts see a world. Of its actors and clients only proofs know
/// more than the numbers of the actors' first turns.
#[derive(Drop)]
pub(crate) struct Base {
    token: Token,
    /// The actors, for proofs.
    actors: GhostList<ActorPart>,
    /// The clients, for proofs.
    clients: GhostList<(u16, u64)>,
    /// The numbers of the actors' first turns.
    first_turns: Vec<u8>,
}

impl Model for Base {
    ghost use Rattle.std.specs.Prelude.{◌≡◌, map};
    ghost use Rattle.st_image.specs.Worlds.{World};
    ghost use Rattle.st_image.specs.Parts.{world_of_parts as world_of};
    ghost use Rattle.st_image.specs.WorldInvariant.{first_of_phase};
    ghost use Rattle.st_image.specs.declared.actor_part.ActorPart.{ActorPart as PartOf};

    ghost Value = { World };

    ghost view = { λ b. world_of b.token b.actors.items b.clients.items };

    ghost invariant = { λ b. b.first_turns.items ≡ map (λ (p : PartOf). first_of_phase p.body.phase) b.actors.items };
}

/// The number of the first turn of an actor with such a body.
fn first_of(phase: &Phase) -> u8
    ensures { result ≡ first_of_phase phase.now }
{
    match phase {
        Phase::Fresh => 1,
        _ => 0,
    }
}

/// Clients, for proofs.
fn logged(clients: &[(u16, u64)]) -> GhostList<(u16, u64)>
    ensures { result.items ≡ clients.now }
{
    let mut log = GhostList::new();
    'clients: for place in 0..clients.len() {
        log = log.and(&clients[place]);
    }
    log
}

impl Base {
    /// A base without actors.
    pub(crate) fn new(alloc: Global, token: Token, clients: &[(u16, u64)]) -> Base
        ensures { result ≡ world_of_parts token [] clients.now }
    {
        Base {
            token,
            actors: GhostList::new(),
            clients: logged(clients),
            first_turns: Vec::new(alloc),
        }
    }

    /// One actor more.
    pub(crate) fn push(&mut self, part: &ActorPart) -> Result<(), AllocError>
        ensures ok { OnOk result (self.new ≡ record self.old { actors = self.old.actors ++ actor_of part.now ∷ [] }) }
        ensures err { OnErr result (self.new ≡ self.old) }
    {
        self.first_turns.push(first_of(&part.body.phase))?;
        self.actors = self.actors.and(part);
        Ok(())
    }

    /// The base of these parts.
    pub(crate) fn of(
        alloc: Global,
        token: Token,
        parts: &[ActorPart],
        clients: &[(u16, u64)],
    ) -> Result<Base, AllocError>
        ensures { IfOk result (λ b. b ≡ world_of_parts token parts.now clients.now) }
    {
        let mut base = Base::new(alloc, token, clients);
        'parts: for place in 0..parts.len() {
            base.push(&parts[place])?;
        }
        Ok(base)
    }

    /// The number of an actor's first turn.
    pub(crate) fn first_turn(&self, actor: ActorId) -> u64
        ensures { result ≡ first_turn_of (slice_get self.now.actors actor.0) }
    {
        match self.first_turns.get(actor.0 as usize) {
            Some(first) => u64::from(*first),
            None => 1,
        }
    }
}
