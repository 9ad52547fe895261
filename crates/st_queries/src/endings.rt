//! How a turn ended, and what is kept of it.
ghost use Rattle.std.specs.Prelude.{◌≡◌, IfOk};
ghost use Rattle.std.specs.Option.{option_copied};
ghost use Rattle.st_queries.specs.Endings.{ending_of, failure_of as failure_in, is_of as is_of_turn};

use crate::failed_turns::KEPT;
use st_classes::faults::Fault;
use st_classes::refusals::Refusal;
use st_classes::values::ActorId;
use st_image::failures::Failed;
use st_image::image::Image;
use st_mailbox::mailboxes::Mailbox;
use st_turn::body::{Body, Outcome};
use std::alloc::{AllocError, Global};

/// A turn that failed, just before the step that did.
#[derive(Drop)]
pub struct Failing {
    pub body: Body,
    pub fault: Fault,
    /// The number of the step that failed, where steps are counted from when the image was new.
    pub step: u64,
}

/// How a turn ended.
#[derive(Drop)]
pub enum Ending {
    /// It failed, and that is kept.
    Failed(Failing),
    /// Its outcome is all that is known, or why that is not.
    Known(Result<Outcome, Refusal>),
}

/// Whether a failure is that of an actor's turn.
fn is_of(failed: &Failed, actor: ActorId, turn: u64) -> bool
    ensures { result ≡ is_of_turn actor turn failed.now }
{
    failed.actor().0 == actor.0 && failed.turn() == turn
}

/// The kept failure of an actor's turn.
fn failure_of<M: Mailbox>(image: &Image<M>, actor: ActorId, turn: u64) -> Option<&Failed>
    ensures { option_copied result ≡ failure_in image.now actor turn }
{
    for place in 0..KEPT {
        if let Some(failed) = image.failure(place) {
            if is_of(failed, actor, turn) {
                return Some(failed);
            }
        }
    }
    None
}

/// How an actor's turn ended. What is kept of a failure is copied.
pub(crate) fn find_ending<M: Mailbox>(
    alloc: Global,
    image: &Image<M>,
    actor: ActorId,
    turn: u64,
) -> Result<Ending, AllocError>
    ensures { IfOk result (λ ending. ending ≡ ending_of image.now actor turn) }
{
    match failure_of(image, actor, turn) {
        Some(failed) => Ok(Ending::Failed(Failing {
            body: failed.body(alloc)?,
            fault: failed.fault(),
            step: failed.step(),
        })),
        None => Ok(Ending::Known(image.outcome(actor, turn))),
    }
}
