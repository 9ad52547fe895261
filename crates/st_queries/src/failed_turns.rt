//! The turns that ended with a fault.
ghost use Rattle.std.specs.Prelude.{◌≡◌, IfOk, option_and_then, slice_get};
ghost use Rattle.serde_json.specs.View.{view};
ghost use Rattle.st_image.specs.Failures.{failures_of};
ghost use Rattle.st_image.specs.NewestResults.{newest};
ghost use Rattle.st_queries.specs.FailedTurns.{failed_behind, failed_since as seen_since, failed_told, failed_turn as failed_turn_of, faults_told, if_behind, lost_until as lost_in, told_from as from_of};

use crate::listing::{ToJson, each};
use st_classes::faults::Fault;
use st_classes::seq::Seq;
use st_classes::values::ActorId;
use st_image::failures::Failed;
use st_image::image::Image;
use st_mailbox::mailboxes::Mailbox;
use st_wire::names::fault_name;
use st_wire::told::{Members, Told};
use std::alloc::{AllocError, Global};

/// The most failures that an image keeps.
pub(crate) const KEPT: usize = 64;

/// A turn that ended with a fault.
#[derive(Clone, Copy, PartialEq, Eq, Debug)]
pub struct FailedTurn {
    pub actor: ActorId,
    pub fault: Fault,
    /// The number of the step that failed, where steps are counted from when the image was new.
    pub step: u64,
    pub turn: u64,
}

/// The turns that failed behind so many steps, as far as they are kept; the oldest first.
#[derive(Drop)]
pub struct FailedSince {
    pub from: u64,
    pub turns: Seq<FailedTurn>,
}

/// The steps before the oldest failure that is kept, if older ones were dropped.
fn lost_until<M: Mailbox>(image: &Image<M>) -> u64
    ensures { result ≡ lost_in (failures_of image.now) }
{
    if image.failed_turns() <= KEPT as u64 {
        return 0;
    }
    match image.failure(0) {
        Some(oldest) => oldest.step().saturating_sub(1),
        None => 0,
    }
}

/// The steps behind which every failure is told, where those behind `after` steps are asked for.
fn told_from<M: Mailbox>(image: &Image<M>, after: u64) -> u64
    ensures { result ≡ from_of image.now after }
{
    after.max(image.steps_at_base().max(lost_until(image)))
}

/// What is told of a failure, without the body that its turn had.
fn failed_turn(failed: &Failed) -> FailedTurn
    ensures { result ≡ failed_turn_of failed.now }
{
    FailedTurn {
        actor: failed.actor(),
        fault: failed.fault(),
        step: failed.step(),
        turn: failed.turn(),
    }
}

/// The kept failure at a place, if it is behind so many steps.
fn behind_at<M: Mailbox>(image: &Image<M>, place: usize, from: u64) -> Option<FailedTurn>
    ensures { result ≡ option_and_then (if_behind from) (slice_get (newest (failures_of image.now)) place) }
{
    let failed = image.failure(place)?;
    if from < failed.step() {
        Some(failed_turn(failed))
    } else {
        None
    }
}

/// Those that are behind so many steps, the oldest first.
fn behind<M: Mailbox>(
    alloc: Global,
    image: &Image<M>,
    from: u64,
) -> Result<Vec<FailedTurn>, AllocError>
    ensures { IfOk result (λ turns. turns.items ≡ failed_behind from (newest (failures_of image.now))) }
{
    let mut turns = Vec::new(alloc);
    for place in 0..KEPT {
        if let Some(turn) = behind_at(image, place, from) {
            turns.push(turn)?;
        }
    }
    Ok(turns)
}

/// The kept failures behind so many steps.
pub(crate) fn failed_since<M: Mailbox>(
    alloc: Global,
    image: &Image<M>,
    after: u64,
) -> Result<FailedSince, AllocError>
    ensures { IfOk result (λ seen. seen ≡ seen_since image.now after) }
{
    let from = told_from(image, after);
    Ok(FailedSince {
        from,
        turns: Seq::from_vec(behind(alloc, image, from)?),
    })
}

/// Tells failed turns one by one.
#[derive(Drop)]
struct EachFailed;

impl ToJson<FailedTurn> for EachFailed {
    ghost json = { λ t f. failed_told f };

    fn to_json(&self, alloc: Global, item: &FailedTurn) -> Result<Told, AllocError> {
        let mut members = Members::new(alloc);
        members.put(alloc, "actor", Told::whole(item.actor.0.into()))?;
        members.put(alloc, "fault", Told::word(alloc, fault_name(item.fault))?)?;
        members.put(alloc, "step", Told::whole(item.step))?;
        members.put(alloc, "turn", Told::whole(item.turn))?;
        Ok(members.told())
    }
}

/// What is told of the turns that failed, in an image that has taken so many steps.
pub(crate) fn faults(alloc: Global, seen: &FailedSince, steps: u64) -> Result<Told, AllocError>
    ensures { IfOk result (λ told. view told ≡ faults_told seen.now steps) }
{
    let mut members = Members::new(alloc);
    members.put(
        alloc,
        "faults",
        each(alloc, &EachFailed, seen.turns.as_slice())?,
    )?;
    members.put(alloc, "from", Told::whole(seen.from))?;
    members.put(alloc, "steps", Told::whole(steps))?;
    Ok(members.told())
}
