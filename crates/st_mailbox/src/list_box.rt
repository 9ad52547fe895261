//! A mailbox that is a queue.
ghost use Rattle.std.specs.Prelude.{◌≡◌, ◌≤◌, length, drop, slice_get, false, Some, None, IfOk, MatchResult};
ghost use Rattle.std.specs.Option.{option_copied};
ghost use Rattle.st_mailbox.specs.Mailboxes.{BoxView, box_refusal, empty_box, with_message};

use crate::mailboxes::Mailbox;
use crate::messages::Message;
use st_classes::refusals::Refusal;
use std::alloc::{AllocError, Global};
use std::collections::VecDeque;
use std::marker::Model;

/// A mailbox over a queue that never grows.
#[derive(Drop)]
pub struct ListBox {
    messages: VecDeque<Message>,
    capacity: u32,
    is_open: bool,
}

impl Model for ListBox {
    ghost use Rattle.std.specs.Prelude.{◌≤◌, length};
    ghost use Rattle.std.specs.VecDeque.{deque_capacity};
    ghost use Rattle.st_mailbox.specs.Mailboxes.{BoxView};

    ghost Value = { BoxView };

    ghost view = { λ b. record { items = b.messages.items; capacity = b.capacity; is_open = b.is_open } };

    ghost invariant = { λ b. (length b.messages.items ≤ b.capacity) × (1 ≤ b.capacity) × (b.capacity ≤ 1024) × (b.capacity ≤ deque_capacity b.messages) };
}

impl Mailbox for ListBox {
    ghost shown = { λ b. b };

    fn with_capacity(alloc: Global, capacity: u32) -> Result<ListBox, AllocError> {
        Ok(ListBox {
            messages: VecDeque::with_capacity(alloc, capacity as usize)?,
            capacity,
            is_open: true,
        })
    }

    fn accept(&mut self, message: Message) -> Result<(), (Message, Refusal)> {
        if !self.is_open {
            return Err((message, Refusal::Closed));
        }
        if self.messages.len() >= self.capacity as usize {
            return Err((message, Refusal::Full));
        }
        self.messages.push_back_reserved(message);
        Ok(())
    }

    fn take(&mut self) -> Option<Message> {
        self.messages.pop_front()
    }

    fn close(&mut self) -> bool {
        let was_open = self.is_open;
        self.is_open = false;
        was_open
    }

    fn item(&self, place: u32) -> Option<&Message> {
        self.messages.get(place as usize)
    }

    fn len(&self) -> u32 {
        self.messages.len() as u32
    }

    fn capacity(&self) -> u32 {
        self.capacity
    }

    fn is_open(&self) -> bool {
        self.is_open
    }
}
