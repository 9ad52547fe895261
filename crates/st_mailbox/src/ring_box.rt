//! A mailbox over a ring.
ghost use Rattle.std.specs.Prelude.{◌≡◌, ◌≤◌, length, drop, slice_get, false, Some, None, IfOk, MatchResult};
ghost use Rattle.std.specs.Option.{option_copied};
ghost use Rattle.st_mailbox.specs.Mailboxes.{BoxView, box_refusal, empty_box, with_message};
ghost use Rattle.st_mailbox.specs.Rings.{unless_empty};

use crate::mailboxes::Mailbox;
use crate::messages::Message;
use circular_buffer::HeapCircularBuffer;
use st_classes::refusals::Refusal;
use std::alloc::{AllocError, Global};
use std::marker::Model;

/// A mailbox over a ring. It frees the ring once it is closed and empty.
#[derive(Drop)]
pub struct RingBox {
    /// None if the mailbox is closed and empty.
    ring: Option<HeapCircularBuffer<Message>>,
    capacity: u32,
    is_open: bool,
}

impl Model for RingBox {
    ghost use Rattle.std.specs.Prelude.{◌≤◌};
    ghost use Rattle.st_mailbox.specs.Mailboxes.{BoxView};
    ghost use Rattle.st_mailbox.specs.Rings.{waiting, HasPlaces};

    ghost Value = { BoxView };

    ghost view = { λ b. record { items = waiting b.ring; capacity = b.capacity; is_open = b.is_open } };

    ghost invariant = { λ b. HasPlaces b.ring b.capacity b.is_open × (1 ≤ b.capacity) × (b.capacity ≤ 1024) };
}

impl Mailbox for RingBox {
    ghost shown = { λ b. b };

    fn with_capacity(alloc: Global, capacity: u32) -> Result<RingBox, AllocError> {
        Ok(RingBox {
            ring: Some(HeapCircularBuffer::with_capacity(alloc, capacity as usize)?),
            capacity,
            is_open: true,
        })
    }

    fn accept(&mut self, message: Message) -> Result<(), (Message, Refusal)> {
        match &mut self.ring {
            Some(ring) if self.is_open => ring
                .try_push_back(message)
                .map_err(|message| (message, Refusal::Full)),
            _ => Err((message, Refusal::Closed)),
        }
    }

    fn take(&mut self) -> Option<Message> {
        let message = self.ring.as_mut()?.pop_front();
        if !self.is_open {
            let_go_if_empty(&mut self.ring);
        }
        message
    }

    fn close(&mut self) -> bool {
        let was_open = self.is_open;
        self.is_open = false;
        let_go_if_empty(&mut self.ring);
        was_open
    }

    fn item(&self, place: u32) -> Option<&Message> {
        self.ring.as_ref()?.get(place as usize)
    }

    fn len(&self) -> u32 {
        self.ring.as_ref().map_or(0, |ring| ring.len() as u32)
    }

    fn capacity(&self) -> u32 {
        self.capacity
    }

    fn is_open(&self) -> bool {
        self.is_open
    }
}

/// Frees a ring that holds no message.
fn let_go_if_empty(ring: &mut Option<HeapCircularBuffer<Message>>)
    ensures { ring.new ≡ unless_empty ring.old }
{
    if let Some(places) = ring
        && places.is_empty()
    {
        *ring = None;
    }
}
