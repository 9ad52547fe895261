//! Actors that are made again, messages that are posted again, and mailboxes that are closed again.
ghost use Rattle.std.specs.Prelude.{OnOk, IfErr, slice_get};
ghost use Rattle.st_image.specs.Images.{close_rules, create_rules, world};
ghost use Rattle.st_journal.specs.declared.entries.Entry.TheVariants as entry;
ghost use Rattle.st_journal.specs.Entries.{Does};
ghost use Rattle.st_journal.specs.Refused.{OfRules, RefusesMessage};

use crate::redo_error::RedoError;
use st_classes::refusals::Refusal;
use st_classes::values::{ActorId, ClassId};
use st_image::image::Image;
use st_mailbox::mailboxes::Mailbox;
use st_mailbox::messages::{Message, Sender};
use std::alloc::Global;

/// Makes an actor again.
pub(super) fn create<M: Mailbox>(
    alloc: Global,
    image: &mut Image<M>,
    class: ClassId,
) -> Result<(), RedoError>
    ensures ok { OnOk result (Does image.old (entry.Created class) image.new) }
    ensures err { IfErr result (λ e. OfRules (create_rules image.old class) e) }
{
    image.known();
    let made = image.create(alloc, class);
    image.known();
    match made {
        Ok(_) => Ok(()),
        Err(refusal) => Err(RedoError::Refused(refusal)),
    }
}

/// Posts a message again, which has to be one of a client.
pub(super) fn post<M: Mailbox>(
    alloc: Global,
    image: &mut Image<M>,
    actor: ActorId,
    message: &Message,
) -> Result<(), RedoError>
    ensures ok { OnOk result (Does image.old (entry.Posted actor message.now) image.new) }
    ensures err { IfErr result (λ e. RefusesMessage image.old actor message.now e) }
{
    let Sender::Client(sender) = message.sender else {
        return Err(RedoError::NotOfClient);
    };
    let Ok(copy) = message.copy(alloc) else {
        return Err(RedoError::Refused(Refusal::NoMemory));
    };
    image.known();
    let posted = image.post(alloc, sender, copy.seq, actor, copy.selector, copy.args);
    image.known();
    match posted {
        Ok(_) => Ok(()),
        Err(refusal) => Err(RedoError::Refused(refusal)),
    }
}

/// Closes a mailbox again.
pub(super) fn close<M: Mailbox>(image: &mut Image<M>, actor: ActorId) -> Result<(), RedoError>
    ensures ok { OnOk result (Does image.old (entry.Closed actor) image.new) }
    ensures err { IfErr result (λ e. OfRules (close_rules image.old (slice_get (world image.old).actors actor.0)) e) }
{
    image.known();
    let closed = image.close(actor);
    image.known();
    match closed {
        Ok(()) => Ok(()),
        Err(refusal) => Err(RedoError::Refused(refusal)),
    }
}
