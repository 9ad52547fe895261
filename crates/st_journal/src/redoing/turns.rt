//! Turns that begin again, steps that are taken again, and checkpoints that are made again.
ghost use Rattle.std.specs.Prelude.{◌≡◌, OnOk, IfErr, slice_get, true};
ghost use Rattle.st_image.specs.Checkpoints.{BeginsAnew};
ghost use Rattle.st_image.specs.Commits.{idle_at, steps_of};
ghost use Rattle.st_image.specs.Images.{world};
ghost use Rattle.st_image.specs.KeptEdits.{KeepsBeginning};
ghost use Rattle.st_classes.specs.declared.refusals.Refusal.TheVariants.{NoMemory};
ghost use Rattle.st_journal.specs.declared.entries.Entry.TheVariants as entry;
ghost use Rattle.st_journal.specs.declared.redo_error.RedoError.TheVariants as error;
ghost use Rattle.st_journal.specs.Entries.{Does};
ghost use Rattle.st_journal.specs.Refused.{RefusesSteps, RefusesTurn};

use crate::redo_error::RedoError;
use st_classes::refusals::Refusal;
use st_classes::values::ActorId;
use st_guard::guard::Guard;
use st_image::image::Image;
use st_mailbox::mailboxes::Mailbox;
use st_turn::claim::Claim;
use st_turn::worker::Worker;
use std::alloc::Global;

/// Whether an actor is idle. So is one that is not there.
fn is_idle_at<M: Mailbox>(image: &Image<M>, actor: ActorId) -> bool
    ensures { result ≡ idle_at (slice_get (world image.now).actors actor.0) }
{
    match image.body(actor) {
        Some(body) => body.is_idle(),
        None => true,
    }
}

/// Begins the next message of an idle actor again.
pub(super) fn begin<M: Mailbox>(
    alloc: Global,
    image: &mut Image<M>,
    actor: ActorId,
) -> Result<(), RedoError>
    ensures ok { OnOk result (Does image.old (entry.Begun actor) image.new) }
    ensures err { IfErr result (λ e. RefusesTurn image.old actor e) }
{
    let is_idle = is_idle_at(image, actor);
    if !is_idle {
        return Err(RedoError::InTurn);
    }
    image.known();
    match image.checkout(alloc, actor) {
        Ok(begun) => {
            image.release(begun);
            image.known();
            Ok(())
        }
        Err(refusal) => Err(RedoError::Refused(refusal)),
    }
}

/// Whether a claim is one of an actor that a commit ends with just this many steps.
fn is_of(claim: &Claim, actor: ActorId, steps: u32) -> bool
    ensures { result ≡ true → (claim.now.actor ≡ actor) × (steps_of claim.now ≡ steps) }
{
    claim.known();
    let last = u64::from(claim.is_act_next());
    let all = u64::from(claim.steps()) + last;
    claim.actor() == actor && all == u64::from(steps)
}

/// Lets an actor that is in a turn take its steps again. The last of them may be one that the image takes. The edits that the worker keeps
/// are not compared with those of the image, nor are bodies.
pub(super) fn run<M: Mailbox, G: Guard>(
    alloc: Global,
    image: &mut Image<M>,
    worker: &mut Worker<G>,
    actor: ActorId,
    steps: u32,
) -> Result<(), RedoError>
    requires { KeepsBeginning (world image.old).edits worker.old }
    ensures ok { OnOk result (Does image.old (entry.Ran actor steps) image.new) }
    ensures err { IfErr result (λ e. RefusesSteps image.old actor steps e) }
    ensures kept { KeepsBeginning (world image.old).edits worker.new }
{
    let is_idle = is_idle_at(image, actor);
    if is_idle {
        return Err(RedoError::Idle);
    }
    if steps == 0 {
        return Err(RedoError::OtherSteps);
    }
    image.known();
    let mut claim = match image.checkout(alloc, actor) {
        Ok(claim) => claim,
        Err(refusal) => return Err(RedoError::Refused(refusal)),
    };
    image.known();
    let ran = worker.run_unchecked(alloc, &mut claim, steps);
    if !is_of(&claim, actor, steps) {
        image.release(claim);
        return match ran {
            Ok(_) => Err(RedoError::OtherSteps),
            Err(_) => Err(RedoError::Refused(Refusal::NoMemory)),
        };
    }
    match image.commit_unchecked(alloc, claim) {
        Ok(_) => {
            image.known();
            Ok(())
        }
        Err((refusal, Some(claim))) => {
            image.release(claim);
            Err(RedoError::Refused(refusal))
        }
        Err((refusal, None)) => Err(RedoError::Refused(refusal)),
    }
}

/// The present world becomes the base again.
pub(super) fn checkpoint<M: Mailbox>(alloc: Global, image: &mut Image<M>) -> Result<(), RedoError>
    ensures ok { OnOk result (BeginsAnew image.old image.new) }
    ensures err { IfErr result (λ e. e ≡ error.Refused NoMemory) }
{
    match image.checkpoint(alloc) {
        Ok(()) => Ok(()),
        Err(_) => Err(RedoError::Refused(Refusal::NoMemory)),
    }
}
