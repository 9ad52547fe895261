//! The numbers of senders in each mailbox.
ghost use Rattle.std.specs.Prelude.{◌≡◌, ◌<◌, All, Decides};
ghost use Rattle.st_image.specs.SenderNumbers.{AfterOthers, IsAbove, IsBelow, IsMailed, IsNumbered, last_in};

use crate::actor_part::ActorPart;
use crate::clients::Clients;
use st_mailbox::messages::{Message, Sender};

fn same_sender(one: Sender, other: Sender) -> bool
    ensures { Decides result (one ≡ other) }
{
    one == other
}

/// Whether a message is of another sender than a later one, or has a smaller number.
fn is_below(later: &Message, earlier: &Message) -> bool
    ensures { Decides result (IsBelow later.now earlier.now) }
{
    !same_sender(earlier.sender, later.sender) || earlier.seq < later.seq
}

/// Whether a message has a greater number than each earlier one of its sender.
fn is_above(earlier: &[Message], later: &Message) -> bool
    ensures { Decides result (IsAbove earlier.now later.now) }
{
    'messages: for place in 0..earlier.len() {
        if !is_below(later, &earlier[place]) {
            return false;
        }
    }
    true
}

/// Whether the numbers of each sender rise. Each message is compared with all before it.
fn are_rising(messages: &[Message]) -> bool
    ensures { Decides result (AfterOthers IsAbove messages.now) }
{
    'messages: for place in 0..messages.len() {
        if !is_above(&messages[..place], &messages[place]) {
            return false;
        }
    }
    true
}

/// The last number of a sender.
fn last_of(lasts: &Clients, actors: &[ActorPart], sender: Sender) -> u64
    ensures { result ≡ last_in lasts.now actors.now sender }
{
    match sender {
        Sender::Client(client) => lasts.last(client),
        Sender::Actor(actor) => match actors.get(actor.0 as usize) {
            Some(part) => part.last,
            None => 0,
        },
    }
}

/// Whether the number of a message is from 1 to its sender's last.
fn is_numbered(lasts: &Clients, actors: &[ActorPart], message: &Message) -> bool
    ensures { Decides result (IsNumbered lasts.now actors.now message.now) }
{
    1 <= message.seq && message.seq <= last_of(lasts, actors, message.sender)
}

fn are_numbered(lasts: &Clients, actors: &[ActorPart], messages: &[Message]) -> bool
    ensures { Decides result (All (IsNumbered lasts.now actors.now) messages.now) }
{
    'messages: for place in 0..messages.len() {
        if !is_numbered(lasts, actors, &messages[place]) {
            return false;
        }
    }
    true
}

/// Whether the numbers of each sender rise in an actor's mailbox, from 1 to the sender's last at most.
fn is_mailed(lasts: &Clients, actors: &[ActorPart], actor: &ActorPart) -> bool
    ensures { Decides result (IsMailed lasts.now actors.now actor.now) }
{
    are_rising(actor.pending.as_slice()) && are_numbered(lasts, actors, actor.pending.as_slice())
}

/// The same for each actor.
pub(super) fn are_mailed(lasts: &Clients, actors: &[ActorPart]) -> bool
    ensures { Decides result (All (IsMailed lasts.now actors.now) actors.now) }
{
    'actors: for place in 0..actors.len() {
        if !is_mailed(lasts, actors, &actors[place]) {
            return false;
        }
    }
    true
}
