//! Image::close: a mailbox accepts no more messages.
use crate::history::Item;
use crate::image::Image;
use st_classes::refusals::Refusal;
use st_classes::values::ActorId;
use st_mailbox::mailboxes::Mailbox;

impl<M: Mailbox> Image<M> {
    ghost use Rattle.std.specs.Prelude.{◌≡◌, ◌<◌, length, slice_get, IfNone};
    ghost use Rattle.st_classes.specs.Refusals.{first_of};
    ghost use Rattle.st_image.specs.Calls.{Closes};
    ghost use Rattle.st_image.specs.Images.{close_rules, world};

    /// Why a close is refused, if it is.
    fn close_refusal(&self, actor: ActorId) -> Option<Refusal>
        ensures value { result ≡ first_of (close_rules self.now (slice_get (world self.now).actors actor.0)) }
        ensures there { IfNone result (actor.0 < length (world self.now).actors) }
    {
        let Some(found) = self.actor(actor) else {
            return Some(Refusal::UnknownActor);
        };
        if !found.is_open() {
            return Some(Refusal::Closed);
        }
        self.room_refusal(1)
    }

    /// Closes the mailbox of an actor: it accepts no more messages. Those that it accepted before may still be begun.
    ///
    /// Refusals, in this order: `UnknownActor`; `Closed` if it is closed already; `HistoryFull`. Memory can run out only if none of these
    /// applies. A refused call changes nothing.
    pub fn close(&mut self, actor: ActorId) -> Result<(), Refusal>
        ensures { Closes self.old actor result self.new }
    {
        if let Some(refusal) = self.close_refusal(actor) {
            return Err(refusal);
        }
        self.history.reserve(1)?;
        self.actors.close(actor);
        self.history.push(Item::Closed(actor)).unwrap();
        Ok(())
    }
}
