//! Whether the numbers of senders in an image file are consistent.
ghost use Rattle.std.specs.Prelude.{List, Decides, IfOk};
ghost use Rattle.st_classes.specs.declared.edits.Edit.{Edit as EditOf};
ghost use Rattle.st_image.specs.Parts.{world_of_parts};
ghost use Rattle.st_image.specs.Senders.{InSendingOrder};
ghost use Rattle.st_image.specs.WorldInvariant.{AreClientsFrom};

mod clients;
mod mailboxes;
mod seen;
mod there;

use crate::actor_part::ActorPart;
use crate::sequence_numbers::clients::are_rising;
use crate::sequence_numbers::mailboxes::are_mailed;
use crate::sequence_numbers::seen::are_apart;
pub(crate) use clients::last_numbers;
use std::alloc::{AllocError, Global};
pub(crate) use there::senders_are_there;

/// Whether clients rise, each with a last number of 1 or more, and the numbers of pending messages are in sending order: those of each
/// sender rise in each mailbox, from 1 to the sender's last at most, and none is in two mailboxes.
pub(crate) fn in_sending_order(
    alloc: Global,
    actors: &[ActorPart],
    clients: &[(u16, u64)],
) -> Result<bool, AllocError>
    ensures { IfOk result (λ are. (edits : List EditOf) → Decides are (AreClientsFrom 0 clients.now × InSendingOrder (world_of_parts edits actors.now clients.now))) }
{
    if !are_rising(clients) {
        return Ok(false);
    }
    let lasts = last_numbers(alloc, clients)?;
    if !are_mailed(&lasts, actors) {
        return Ok(false);
    }
    are_apart(alloc, actors)
}
