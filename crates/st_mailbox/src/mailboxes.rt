//! What every kind of mailbox does.
ghost use Rattle.std.specs.Prelude.{◌≡◌, ◌≤◌, length, drop, slice_get, false, Some, None, IfOk, MatchResult};
ghost use Rattle.std.specs.Option.{option_copied};
ghost use Rattle.st_classes.specs.Refusals.{first_of};
ghost use Rattle.st_mailbox.specs.Mailboxes.{BoxView, box_refusal, empty_box, with_message};

use crate::messages::Message;
use st_classes::refusals::Refusal;
use std::alloc::{AllocError, Global};

/// A mailbox. All its memory is allocated when it is made. No other call allocates.
pub trait Mailbox: Drop {
    /// The waiting messages, the capacity, and whether it is open.
    ghost shown: { Self → BoxView };

    /// An empty, open mailbox with room for `capacity` messages, from 1 to 1,024.
    fn with_capacity(alloc: Global, capacity: u32) -> Result<Self, AllocError>
        requires some { 1 ≤ capacity }
        requires few { capacity ≤ 1024 }
        ensures { IfOk result (λ b. shown b ≡ empty_box capacity) };

    /// Appends a message. If the mailbox is closed (`Closed`), or open and full (`Full`), the message is given back with the
    /// reason, and nothing changes.
    fn accept(&mut self, message: Message) -> Result<(), (Message, Refusal)>
        ensures answers { MatchResult result
            (λ _. (box_refusal (shown self.old) ≡ None) × (shown self.new ≡ with_message message (shown self.old)))
            (λ e. (box_refusal (shown self.old) ≡ Some e.1) × (e.0 ≡ message) × (shown self.new ≡ shown self.old)) };

    /// Removes the first message, if there is one, and returns it.
    fn take(&mut self) -> Option<Message>
        ensures first { result ≡ slice_get (shown self.old).items 0 }
        ensures rest { shown self.new ≡ record (shown self.old) { items = drop 1 (shown self.old).items } };

    /// Closes the mailbox: it accepts no more messages, and those that wait stay. Returns whether it was open before.
    fn close(&mut self) -> bool
        ensures was { result ≡ (shown self.old).is_open }
        ensures closed { shown self.new ≡ record (shown self.old) { is_open = false } };

    /// The message at an index, from 0, if there is one.
    fn item(&self, place: u32) -> Option<&Message>
        ensures { option_copied result ≡ slice_get (shown self.now).items place };

    /// The number of waiting messages.
    fn len(&self) -> u32
        ensures value { result ≡ length (shown self.now).items }
        ensures within { result ≤ (shown self.now).capacity };

    /// The most messages that it can hold, from 1 to 1,024.
    fn capacity(&self) -> u32
        ensures value { result ≡ (shown self.now).capacity }
        ensures some { 1 ≤ result }
        ensures few { result ≤ 1024 };

    /// Whether it accepts messages.
    fn is_open(&self) -> bool
        ensures { result ≡ (shown self.now).is_open };
}
