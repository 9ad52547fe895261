//! Image::post: a message of a client.
ghost use Rattle.std.specs.Prelude.{◌≡◌, ◌<◌, ℕ, length, vec_len, vec_capacity, OnOk};
ghost use Rattle.st_image.specs.Clients.{number_of};

use crate::acting::post_refusal;
use crate::clients::Clients;
use crate::counts::MOST_COUNTED;
use crate::dropping::let_go;
use crate::history::Item;
use crate::image::Image;
use st_classes::refusals::Refusal;
use st_classes::values::{ActorId, Selector, Values};
use st_mailbox::mailboxes::Mailbox;
use st_mailbox::messages::{Message, Sender};
use std::alloc::{AllocError, Global};

/// Makes room for one more item of a history, and for the number of a client.
fn make_room(history: &mut Vec<Item>, clients: &mut Clients, client: u16) -> Result<(), AllocError>
    ensures items { history.new.items ≡ history.old.items }
    ensures numbers { (s : ℕ) → number_of clients.new s ≡ number_of clients.old s }
    ensures room { OnOk result (vec_len history.new < vec_capacity history.new) }
    ensures place { OnOk result (client < length clients.new) }
{
    history.reserve(1)?;
    clients.make_room(client)
}

impl<M: Mailbox> Image<M> {
    ghost use Rattle.std.specs.Prelude.{◌≡◌, ◌<◌, [], ◌∷◌, length, IfNone, OnOk};
    ghost use Rattle.st_classes.specs.Refusals.{first_of};
    ghost use Rattle.st_image.specs.Calls.{AnswersExactly, Posts};
    ghost use Rattle.st_image.specs.Images.{image_post_rules, no_room, too_many_posts, world};
    ghost use Rattle.st_image.specs.PostRules.{from_client};

    /// Why there is no room for one more post, in the history or in the count of posts, if there is none.
    fn post_room_refusal(&self) -> Option<Refusal>
        ensures { result ≡ first_of (no_room self.now 1 ∷ too_many_posts self.now ∷ []) }
    {
        if self.room_refusal(1).is_some() || self.counted().posts >= MOST_COUNTED {
            return Some(Refusal::HistoryFull);
        }
        None
    }

    /// Why a message is refused, if it is.
    fn post_refusal(&self, actor: ActorId, message: &Message) -> Option<Refusal>
        ensures value { result ≡ first_of (image_post_rules self.now actor message.now) }
        ensures there { IfNone result (actor.0 < length (world self.now).actors) }
    {
        let last = self.sender_last(message.sender);
        match post_refusal(
            &self.names,
            self.token.shown(),
            &self.actors,
            last,
            actor,
            message,
        ) {
            Some(refusal) => Some(refusal),
            None => self.post_room_refusal(),
        }
    }

    /// A copy of a message, for the history, or why the message is refused.
    fn copy_to_post(
        &self,
        alloc: Global,
        actor: ActorId,
        message: &Message,
    ) -> Result<Message, Refusal>
        ensures answers { AnswersExactly (first_of (image_post_rules self.now actor message.now)) result (λ copy. copy ≡ message.now) }
        ensures there { OnOk result (actor.0 < length (world self.now).actors) }
    {
        if let Some(refusal) = self.post_refusal(actor, message) {
            return Err(refusal);
        }
        Ok(message.copy(alloc)?)
    }

    /// Appends a client's message, with the client's own number for it, to the mailbox of an actor. The answer is its place, from 1, among
    /// the messages that were pending at the last checkpoint and those accepted since. This is also the number of its turn.
    ///
    /// Refusals, in this order: `UnknownActor`; `BadArguments` if the selector does not exist or takes another number of arguments, or an
    /// argument is a local or names nothing; `Old` if the number is not above the client's last one; `Closed`; `Full`; `HistoryFull`, also
    /// if 2^63 - 1 posts were counted. Memory can run out only if none of these applies. A refused call changes nothing.
    pub fn post(
        &mut self,
        alloc: Global,
        sender: u16,
        seq: u64,
        actor: ActorId,
        selector: Selector,
        args: Values,
    ) -> Result<u64, Refusal>
        ensures { Posts self.old actor (from_client sender seq selector args) result self.new }
    {
        let message = Message {
            sender: Sender::Client(sender),
            seq,
            selector,
            args,
        };
        let copy = match self.copy_to_post(alloc, actor, &message) {
            Ok(copy) => copy,
            Err(refusal) => return Err(let_go(message, refusal)),
        };
        let Ok(()) = make_room(&mut self.history, &mut self.clients, sender) else {
            return Err(let_go(copy, let_go(message, Refusal::NoMemory)));
        };
        let place = self.actors.deliver(actor, message);
        self.clients.set(sender, seq);
        self.history.push_reserved(Item::Posted {
            actor,
            message: copy,
        });
        self.counts.posts += 1;
        Ok(place)
    }
}
