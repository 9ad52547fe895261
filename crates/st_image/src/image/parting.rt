//! Image::part and parts: actors as plain data, and the world as a base.
use crate::actor_part::ActorPart;
use crate::image::Image;
use st_classes::refusals::Refusal;
use st_classes::values::ActorId;
use st_mailbox::mailboxes::Mailbox;
use std::alloc::{AllocError, Global};

impl<M: Mailbox> Image<M> {
    ghost use Rattle.std.specs.Prelude.{◌≡◌, Some, IfOk, map, slice_get};
    ghost use Rattle.std.specs.Option.{option_map};
    ghost use Rattle.st_classes.specs.Refusals.{first_of};
    ghost use Rattle.st_image.specs.Calls.{AnswersExactly};
    ghost use Rattle.st_image.specs.Images.{world};
    ghost use Rattle.st_image.specs.Loaded.{AreBaseActors, AreBaseSenders};
    ghost use Rattle.st_image.specs.Parts.{part_of, part_rules};

    /// A copy of an actor as plain data: its class, its mailbox with what is pending, its body, and the number of the last message that it
    /// sent. `UnknownActor` if there is none with this number.
    pub fn part(&self, alloc: Global, actor: ActorId) -> Result<ActorPart, Refusal>
        ensures { AnswersExactly (first_of (part_rules (slice_get (world self.now).actors actor.0))) result (λ part. option_map part_of (slice_get (world self.now).actors actor.0) ≡ Some part) }
    {
        let Some(found) = self.actor(actor) else {
            return Err(Refusal::UnknownActor);
        };
        Ok(found.part(alloc)?)
    }

    /// Copies of all actors as plain data.
    pub fn parts(&self, alloc: Global) -> Result<Vec<ActorPart>, AllocError>
        ensures { IfOk result (λ parts. parts.items ≡ map part_of (world self.now).actors) }
    {
        let mut parts = Vec::new(alloc);
        for actor in 0..self.actors() {
            let Ok(part) = self.part(alloc, ActorId(actor)) else {
                return Err(AllocError);
            };
            parts.push(part)?;
        }
        Ok(parts)
    }

    /// An image can begin with the present world: the parts of the actors are those of the actors of a base, and the numbers of the senders
    /// are consistent.
    pub fn can_be_base(&self)
        ensures actors { AreBaseActors self.now.names (world self.now).edits (map part_of (world self.now).actors) }
        ensures senders { AreBaseSenders (world self.now).edits (map part_of (world self.now).actors) (world self.now).clients }
    {
        self.known();
        self.delivered();
    }
}
