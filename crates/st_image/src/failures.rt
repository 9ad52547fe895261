//! The turns that ended with a fault, of which the newest are kept.
ghost use Rattle.std.specs.Prelude.{◌≡◌, Some, slice_get};
ghost use Rattle.st_turn.specs.BodyFits.{FitsSome};
ghost use Rattle.st_turn.specs.Reruns.{LeadsSomewhere};
ghost use Rattle.st_turn.specs.Steps.{own_steps};
ghost use Rattle.st_turn.specs.declared.body.Body.{Body as BodyOf};
ghost use Rattle.st_image.specs.Failed.{ended_by_fault as fault_ended, failure_told};
ghost use Rattle.st_image.specs.Failures.{fault_in};
ghost use Rattle.st_image.specs.WorldInvariant.{first_turn};

use crate::actors::Actors;
use crate::base::Base;
use circular_buffer::HeapCircularBuffer;
use st_classes::faults::Fault;
use st_classes::values::ActorId;
use st_mailbox::mailboxes::Mailbox;
use st_turn::body::{Body, Outcome, Phase};
use st_turn::claim::ClaimParts;
use st_turn::reruns::Rerun;
use std::alloc::{AllocError, Global};
use std::marker::Model;

/// How many failures are kept.
const KEPT: usize = 64;

/// A turn that ended with a fault. Contracts see its actor, its number, the fault, the image's number of the step that failed, and the
/// actor's body before that step. The body is not kept, but the claim by which the turn ended: who asks has its steps taken again.
#[derive(Drop)]
pub struct Failed {
    actor: ActorId,
    turn: u64,
    fault: Fault,
    step: u64,
    rerun: Rerun,
}

impl Model for Failed {
    ghost use Rattle.st_image.specs.Failures.{Failure};

    ghost Value = { Failure };

    ghost view = { λ f. record { actor = f.actor; turn = f.turn; fault = f.fault; step = f.step; body = f.rerun } };
}

impl Failed {
    ghost use Rattle.std.specs.Prelude.{◌≡◌, IfOk};

    pub fn actor(&self) -> ActorId
        ensures { result ≡ self.now.actor }
    {
        self.actor
    }

    /// The number of the turn, as `Image::outcome` has it.
    pub fn turn(&self) -> u64
        ensures { result ≡ self.now.turn }
    {
        self.turn
    }

    pub fn fault(&self) -> Fault
        ensures { result ≡ self.now.fault }
    {
        self.fault
    }

    /// The number of the step that failed, among all steps since the image was new.
    pub fn step(&self) -> u64
        ensures { result ≡ self.now.step }
    {
        self.step
    }

    /// The actor's body before the step that failed. The steps of the turn's last quantum are taken again, by plain walks.
    pub fn body(&self, alloc: Global) -> Result<Body, AllocError>
        ensures { IfOk result (λ b. b ≡ self.now.body) }
    {
        self.rerun.body(alloc)
    }
}

/// The newest 64 failures, and how many there were.
#[derive(Drop)]
pub(crate) struct Failures {
    newest: HeapCircularBuffer<Failed>,
    count: u64,
}

impl Model for Failures {
    ghost use Rattle.std.specs.Prelude.{◌≡◌, ◌≤◌, length};
    ghost use Rattle.st_image.specs.Failures.{KeptFailures};

    ghost Value = { KeptFailures };

    ghost view = { λ f. record { items = f.newest.items; count = f.count } };

    ghost invariant = { λ f. (f.newest.capacity ≡ 64) × (length f.newest.items ≤ 64) };
}

impl Failures {
    ghost use Rattle.std.specs.Prelude.{◌≡◌, ◌<◌, ◌^◌, [], Some, slice_get, IfOk};
    ghost use Rattle.std.specs.Option.{option_copied};
    ghost use Rattle.st_image.specs.Failures.{failures_kept, kept_after};
    ghost use Rattle.st_image.specs.declared.failures.Failed.{Failed as FailedOf};

    /// No failures. The places are made at once, so that a commit needs no memory for one.
    pub(crate) fn none(alloc: Global) -> Result<Failures, AllocError>
        ensures { IfOk result (λ f. f ≡ failures_kept []) }
    {
        Ok(Failures {
            newest: HeapCircularBuffer::with_capacity(alloc, KEPT)?,
            count: 0,
        })
    }

    /// Appends a failure. The first of 65 goes, and its claim is given back.
    fn keep(&mut self, failed: Failed) -> Option<Box<ClaimParts>>
        requires { self.old.count < 2 ^ 63 }
        ensures { self.new ≡ kept_after self.old (Some failed) }
    {
        self.count += 1;
        match self.newest.push_back(failed) {
            Some(oldest) => Some(oldest.rerun.into_parts()),
            None => None,
        }
    }

    /// The failure at a place among those that are kept, the oldest first.
    pub(crate) fn get(&self, place: usize) -> Option<&Failed>
        ensures { option_copied result ≡ slice_get self.now.items place }
    {
        self.newest.get(place)
    }

    /// How many failures there were.
    pub(crate) fn count(&self) -> u64
        ensures { result ≡ self.now.count }
    {
        self.count
    }

    /// Keeps the failure that the last step of a claim was, if it was one: `ended` tells the turn and the fault. So many steps of the
    /// claim come before it. A claim that nothing needs any more is given back.
    pub(crate) fn keep_if_failed(
        &mut self,
        ended: Option<(u64, Fault)>,
        step: u64,
        parts: Box<ClaimParts>,
        before: u32,
    ) -> Option<Box<ClaimParts>>
        requires few { self.old.count < 2 ^ 63 }
        requires fits { FitsSome parts.value.token parts.value.actor parts.value.before }
        requires leads { LeadsSomewhere parts.value.token parts.value.actor before parts.value.before }
        ensures { (b : BodyOf) → own_steps parts.value.token parts.value.actor before parts.value.before ≡ Some b → self.new ≡ kept_after self.old (failure_told parts.value.actor step b ended) }
    {
        let Some((turn, fault)) = ended else {
            return Some(parts);
        };
        self.keep(Failed {
            actor: parts.actor,
            turn,
            fault,
            step,
            rerun: Rerun::of(parts, before),
        })
    }
}

/// The fault with which a turn has ended, if so.
fn fault_of(phase: &Phase) -> Option<Fault>
    ensures { result ≡ fault_in phase.now }
{
    match phase {
        Phase::Done(Outcome::Fault(fault)) => Some(*fault),
        _ => None,
    }
}

/// The number of the turn that an actor has ended last, and the fault with which it ended, if it ended with one.
#[inline]
pub(crate) fn ended_by_fault<M: Mailbox>(
    base: &Base,
    actors: &Actors<M>,
    actor: ActorId,
) -> Option<(u64, Fault)>
    ensures { result ≡ fault_ended (first_turn (slice_get base.now.actors actor.0)) (slice_get actors.now.list actor.0) }
{
    let found = actors.get(actor)?;
    let fault = fault_of(&found.body().phase)?;
    let ended = found.ended().saturating_sub(1);
    Some((base.first_turn(actor) + ended, fault))
}
