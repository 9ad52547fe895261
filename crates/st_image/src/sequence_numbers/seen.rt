//! Whether a number of a sender is in two mailboxes.
ghost use Rattle.std.specs.Prelude.{◌≡◌, ◌⊎◌, ℕ, true, false, All, Decides, IfOk, OnOk};
ghost use Rattle.st_mailbox.specs.declared.messages.Message.{Message as MessageOf};
ghost use Rattle.st_mailbox.specs.declared.messages.Sender.{Sender as SenderOf};
ghost use Rattle.st_image.specs.SenderNumbers.{AfterOthers, AreSeen, IsApart, IsIn, has as has_number};

use crate::actor_part::ActorPart;
use st_mailbox::messages::{Message, Sender};
use std::alloc::{AllocError, Global};
use std::collections::BTreeSet;

/// Numbers of senders that were seen.
#[derive(Drop)]
struct SeenNumbers {
    of_clients: BTreeSet<(u16, u64)>,
    of_actors: BTreeSet<(u32, u64)>,
}

impl SeenNumbers {
    fn new(alloc: Global) -> SeenNumbers
        ensures { AreSeen result (λ s n. ⊥) }
    {
        SeenNumbers {
            of_clients: BTreeSet::new(alloc),
            of_actors: BTreeSet::new(alloc),
        }
    }

    fn has(&self, sender: Sender, number: u64) -> bool
        ensures { result ≡ has_number self.now sender number }
    {
        match sender {
            Sender::Client(client) => self.of_clients.contains(&(client, number)),
            Sender::Actor(actor) => self.of_actors.contains(&(actor.0, number)),
        }
    }

    /// Adds a number.
    fn add(&mut self, sender: Sender, number: u64) -> Result<(), AllocError>
        ensures { OnOk result (AreSeen self.new (λ s n. (has_number self.old s n ≡ true) ⊎ ((s ≡ sender) × (n ≡ number)))) }
    {
        match sender {
            Sender::Client(client) => {
                self.of_clients.insert((client, number))?;
            }
            Sender::Actor(actor) => {
                self.of_actors.insert((actor.0, number))?;
            }
        }
        Ok(())
    }

    /// Adds the numbers of some messages.
    fn add_all(&mut self, messages: &[Message]) -> Result<(), AllocError>
        ensures { OnOk result (AreSeen self.new (λ s n. (has_number self.old s n ≡ true) ⊎ IsIn messages.now s n)) }
    {
        'messages: for place in 0..messages.len() {
            let message = &messages[place];
            self.add(message.sender, message.seq)?;
        }
        Ok(())
    }

    /// Whether none of the numbers of some messages was seen.
    fn are_new(&self, messages: &[Message]) -> bool
        ensures { Decides result (All (λ (m : MessageOf). has_number self.now m.sender m.seq ≡ false) messages.now) }
    {
        'messages: for place in 0..messages.len() {
            let message = &messages[place];
            if self.has(message.sender, message.seq) {
                return false;
            }
        }
        true
    }
}

/// Whether no number of a sender is in the mailboxes of two actors.
pub(super) fn are_apart(alloc: Global, actors: &[ActorPart]) -> Result<bool, AllocError>
    ensures { IfOk result (λ are. Decides are (AfterOthers IsApart actors.now)) }
{
    let mut seen = SeenNumbers::new(alloc);
    'actors: for place in 0..actors.len() {
        let messages = actors[place].pending.as_slice();
        if !seen.are_new(messages) {
            return Ok(false);
        }
        seen.add_all(messages)?;
    }
    Ok(true)
}
