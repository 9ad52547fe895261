//! Whether the senders of messages exist.
ghost use Rattle.std.specs.Prelude.{length, All, Decides};
ghost use Rattle.st_mailbox.specs.declared.messages.Message.{Message as MessageOf};
ghost use Rattle.st_image.specs.SenderNumbers.{HasSenders, IsSenderAmong};

use crate::actor_part::ActorPart;
use st_mailbox::messages::{Message, Sender};

/// Whether a sender is a client, or one of this many actors.
fn is_there(actors: usize, sender: Sender) -> bool
    ensures { Decides result (IsSenderAmong actors sender) }
{
    match sender {
        Sender::Client(_) => true,
        Sender::Actor(actor) => (actor.0 as usize) < actors,
    }
}

fn are_there(actors: usize, messages: &[Message]) -> bool
    ensures { Decides result (All (λ (m : MessageOf). IsSenderAmong actors m.sender) messages.now) }
{
    'messages: for place in 0..messages.len() {
        if !is_there(actors, messages[place].sender) {
            return false;
        }
    }
    true
}

fn has_senders(actors: usize, actor: &ActorPart) -> bool
    ensures { Decides result (HasSenders actors actor.now) }
{
    are_there(actors, actor.pending.as_slice())
}

/// Whether each sender of a message in the mailbox of an actor is a client, or one of these actors.
pub(crate) fn senders_are_there(actors: &[ActorPart]) -> bool
    ensures { Decides result (All (HasSenders (length actors.now)) actors.now) }
{
    'actors: for place in 0..actors.len() {
        if !has_senders(actors.len(), &actors[place]) {
            return false;
        }
    }
    true
}
