//! The actors of an image that is loaded.
ghost use Rattle.std.specs.Prelude.{◌≡◌, ◌+◌, ◌<◌, ◌≤◌, ◌++◌, [], ◌∷◌, length, map, replicate, All, IfOk, OnOk};
ghost use Rattle.st_image.specs.ActorViews.{actor_view};
ghost use Rattle.st_image.specs.Parts.{FitsMailbox, actor_of};
ghost use Rattle.st_image.specs.declared.actor_part.ActorPart.{ActorPart as PartOf};

use crate::actor::Actor;
use crate::actor_part::ActorPart;
use crate::actors::{Actors, make_room};
use crate::dropping::let_go;
use st_mailbox::mailboxes::Mailbox;
use std::alloc::{AllocError, Global};

impl<M: Mailbox> Actors<M> {
    /// Appends an actor of which no claim is out.
    fn add(&mut self, actor: Actor<M>) -> Result<(), AllocError>
        requires few { length self.old.list < 65536 }
        ensures { OnOk result (self.new ≡ record { list = self.old.list ++ actor ∷ []; out = self.old.out ++ 0 ∷ [] }) }
    {
        let number = self.items.len() as u32;
        let is_ready = actor.is_ready();
        let Ok(()) = make_room(&mut self.items, &mut self.out, &mut self.free) else {
            return Err(let_go(actor, AllocError));
        };
        self.items.push_reserved(actor);
        self.out.push_reserved(0);
        self.free.set(number, is_ready);
        Ok(())
    }

    /// The actors of these parts. No claim is out.
    pub(crate) fn from_parts(alloc: Global, parts: Vec<ActorPart>) -> Result<Actors<M>, AllocError>
        requires few { length parts.items ≤ 65536 }
        requires fit { All FitsMailbox parts.items }
        ensures { IfOk result (λ a. a ≡ record { list = map (λ (p : PartOf). actor_view (actor_of p)) parts.items; out = replicate (length parts.items) 0 }) }
    {
        let mut actors = Actors::new(alloc);
        for part in parts {
            let actor = Actor::from_part(alloc, part)?;
            actors.add(actor)?;
        }
        Ok(actors)
    }
}
