//! Receipts of accepted posts.
use st_classes::values::ActorId;
use st_mailbox::messages::Message;

/// A message that was accepted for an actor, and the place of its item, from 0, in the list of the items that checkpoints have emptied
/// since the image was shared, followed by those of the image's history.
#[derive(Drop)]
pub struct Receipt {
    pub place: u64,
    pub actor: ActorId,
    pub message: Message,
}
