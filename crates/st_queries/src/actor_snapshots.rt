//! What is seen of actors in a moment, apart from their bodies.
ghost use Rattle.std.specs.Prelude.{◌≡◌, ◌<◌, IfOk, length, option_map, slice_get};
ghost use Rattle.st_image.specs.Images.{world};
ghost use Rattle.st_queries.specs.ActorSnapshots.{actor_snapshot_of, actor_snapshots_from, stand_of};

use st_classes::values::{ActorId, ClassId, MethodId};
use st_image::image::Image;
use st_mailbox::mailboxes::Mailbox;
use st_turn::body::{Outcome, Phase};
use std::alloc::{AllocError, Global};

/// Where an actor's turn stands.
#[derive(Clone, Copy, PartialEq, Eq, Debug)]
pub enum Stand {
    /// No turn has begun.
    Fresh,
    /// A turn has begun, and no step was taken.
    Started,
    /// A turn goes on; this is the method of its running frame.
    Running(MethodId),
    /// The last turn has ended.
    Ended(Outcome),
}

/// What is seen of an actor.
#[derive(Clone, Copy, PartialEq, Eq, Debug)]
pub struct ActorSnapshot {
    /// How many messages it has accepted since the base.
    pub accepted: u64,
    /// How many of these it has begun.
    pub begun: u64,
    pub class: ClassId,
    pub is_open: bool,
    pub stand: Stand,
}

/// Where a turn stands.
fn stand_in(phase: &Phase) -> Stand
    ensures { result ≡ stand_of phase.now }
{
    match phase {
        Phase::Fresh => Stand::Fresh,
        Phase::Start { .. } => Stand::Started,
        Phase::Frames(stack) => Stand::Running(stack.method()),
        Phase::Done(outcome) => Stand::Ended(*outcome),
    }
}

/// What is seen of an actor, if there is one with this number.
fn actor_snapshot_at<M: Mailbox>(image: &Image<M>, actor: ActorId) -> Option<ActorSnapshot>
    ensures { result ≡ option_map actor_snapshot_of (slice_get (world image.now).actors actor.0) }
{
    image.known();
    let (Some(class), Some(body)) = (image.class(actor), image.body(actor)) else {
        return None;
    };
    let (Some(accepted), Some(mailbox)) = (image.accepted(actor), image.mailbox(actor)) else {
        return None;
    };
    Some(ActorSnapshot {
        accepted,
        begun: accepted - u64::from(mailbox.len()),
        class,
        is_open: mailbox.is_open(),
        stand: stand_in(&body.phase),
    })
}

/// What is seen of the actors from a number on, `most` of them at most.
pub(crate) fn actor_snapshots<M: Mailbox>(
    alloc: Global,
    image: &Image<M>,
    from: u32,
    most: u32,
) -> Result<Vec<ActorSnapshot>, AllocError>
    ensures seen { IfOk result (λ seen. seen.items ≡ actor_snapshots_from from most (world image.now).actors) }
    ensures few { IfOk result (λ seen. length seen.items < 4294967296) }
{
    let count = image.actors();
    let until = from.saturating_add(most.min(count.saturating_sub(from)));
    let mut seen = Vec::with_capacity(alloc, (until - from) as usize)?;
    for number in from..until {
        if let Some(actor_snapshot) = actor_snapshot_at(image, ActorId(number)) {
            seen.push(actor_snapshot)?;
        }
    }
    Ok(seen)
}
