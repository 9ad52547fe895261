//! A worker of a system, and what it does with its claim.
ghost use Rattle.std.specs.Prelude.{◌≡◌, ◌↔◌, IsTrue, None, Result};
ghost use Rattle.st_classes.specs.declared.refusals.Refusal.{Refusal as RefusalOf};
ghost use Rattle.st_turn.specs.declared.body.Stop.{Stop as StopOf};
ghost use Rattle.st_turn.specs.Claims.{BeganAs};
ghost use Rattle.st_image.specs.Images.{ImageView};
ghost use Rattle.st_system.specs.declared.events.Answer.TheVariants.{Stopped};
ghost use Rattle.st_image.specs.GoingOn.{GoesOnIn};
ghost use Rattle.st_image.specs.KeptEdits.{KeepsBeginning};
ghost use Rattle.st_system.specs.SystemWorkers.{AreValidWhereKept, FitsWorker, HaveNothing, JoinsSystem};
ghost use Rattle.st_system.specs.Schedules.{bare, claim_of};
ghost use Rattle.st_calls.specs.Does.{told};
ghost use Rattle.st_system.specs.ClaimEvents.{CommitsClaim, KeepsClaim, OfClaim, ReleasesClaim, StepsClaim, TakesClaim, TakesOne};
ghost use Rattle.st_system.specs.WorkerEvents.{MovesAndSteps, WorkerChecksOut, WorkerCommits, WorkerTakesStep};

use crate::events::Answer;
use st_calls::claims;
use st_classes::refusals::Refusal;
use st_classes::values::ActorId;
use st_classes::version::Version;
use st_guard::guard::Guard;
use st_image::image::Image;
use st_image::recycled::Recycled;
use st_mailbox::mailboxes::Mailbox;
use st_turn::claim::Claim;
use st_turn::worker::Worker;
use std::alloc::Global;
use std::marker::Model;

/// A worker, with its claim if it has one. Contracts see its caches and the claim.
///
/// The caches can follow the claim: if they keep a list of edits, it is a prefix of the claim's edits.
#[derive(Drop)]
pub struct SystemWorker<G: Guard> {
    worker: Worker<G>,
    claim: Option<Claim>,
}

impl<G: Guard> Model for SystemWorker<G> {
    ghost use Rattle.st_system.specs.SystemWorkers.{CanFollow, WorkerView};

    ghost Value = { WorkerView G };

    ghost view = { λ s. record { caches = s.worker; claim = s.claim } };

    ghost invariant = { λ s. CanFollow s.worker s.claim };
}

/// Whether a worker's caches keep no list of edits, or one that is a prefix of a version's edits.
fn keeps_beginning<G: Guard>(worker: &Worker<G>, version: &Version) -> bool
    ensures { IsTrue result ↔ KeepsBeginning version.now worker.now }
{
    match worker.caches().kept() {
        Some(kept) => kept.shown().begins(version),
        None => true,
    }
}

/// Takes one step of a claim, where one of the actor's own is next.
fn take_one<G: Guard>(
    alloc: Global,
    worker: &mut Worker<G>,
    claim: &mut Claim,
) -> Result<Answer, Refusal>
    requires { KeepsBeginning claim.old.edits worker.old }
    ensures takes { (stop : Result StopOf RefusalOf) × (result ≡ told Stopped stop) × TakesOne (bare claim.old) stop (bare claim.new) }
    ensures whole { MovesAndSteps G.count G.floor G.raises worker.old claim.old result worker.new claim.new }
    ensures began { BeganAs claim.old claim.new }
    ensures kept { KeepsBeginning claim.new.edits worker.new }
{
    match worker.step_unchecked(alloc, claim) {
        Ok(stop) => Ok(Answer::Stopped(stop)),
        Err(_) => Err(Refusal::NoMemory),
    }
}

impl<G: Guard> SystemWorker<G> {
    /// A worker without a claim, in a system with this class table. Its caches are emptied if they keep a list of edits that is not a
    /// prefix of the table's.
    pub fn new(mut worker: Worker<G>, version: &Version) -> SystemWorker<G>
        ensures { JoinsSystem version.now worker result }
    {
        if keeps_beginning(&worker, version) {
            return SystemWorker {
                worker,
                claim: None,
            };
        }
        worker.forget();
        SystemWorker {
            worker,
            claim: None,
        }
    }

    /// If the caches keep a list of edits, they are valid at it.
    pub fn known_caches(&self)
        ensures { AreValidWhereKept G.count G.floor self.now.caches }
    {
        self.worker.caches().known();
    }

    /// Gives the worker a claim of an actor, if it has none.
    pub(crate) fn check_out<M: Mailbox>(
        &mut self,
        alloc: Global,
        image: &mut Image<M>,
        actor: ActorId,
    ) -> Result<Answer, Refusal>
        requires { FitsWorker image.old self.old }
        ensures acts { TakesClaim actor image.old (claim_of self.old) result image.new (claim_of self.new) }
        ensures whole { WorkerChecksOut actor image.old self.old self.old.claim result image.new self.new }
        ensures caches { self.new.caches ≡ self.old.caches }
        ensures later { GoesOnIn image.old image.new }
        ensures fits { FitsWorker image.new self.new }
    {
        if self.claim.is_some() {
            return Err(Refusal::BadArguments);
        }
        let claim = claims::check_out(alloc, image, actor, &mut Recycled::none())?;
        self.claim = Some(claim);
        Ok(Answer::Done)
    }

    /// Takes one step of the claim. The image is not asked.
    pub(crate) fn step(&mut self, alloc: Global) -> Result<Answer, Refusal>
        ensures acts { (image : ImageView) → OfClaim StepsClaim image (claim_of self.old) result image (claim_of self.new) }
        ensures whole { WorkerTakesStep G.count G.floor G.raises self.old self.old.claim result self.new }
        ensures fits { (image : ImageView) → FitsWorker image self.old → FitsWorker image self.new }
    {
        match &mut self.claim {
            Some(claim) => take_one(alloc, &mut self.worker, claim),
            None => Err(Refusal::NothingToDo),
        }
    }

    /// Commits the claim. The worker keeps the claim if it is handed back.
    pub(crate) fn commit<M: Mailbox>(
        &mut self,
        alloc: Global,
        image: &mut Image<M>,
    ) -> Result<Answer, Refusal>
        requires { FitsWorker image.old self.old }
        ensures acts { OfClaim CommitsClaim image.old (claim_of self.old) result image.new (claim_of self.new) }
        ensures whole { WorkerCommits image.old self.old self.old.claim result image.new self.new }
        ensures caches { self.new.caches ≡ self.old.caches }
        ensures later { GoesOnIn image.old image.new }
        ensures fits { FitsWorker image.new self.new }
    {
        let Some(claim) = self.claim.take() else {
            return Err(Refusal::NothingToDo);
        };
        match claims::commit(alloc, image, claim, &mut Recycled::none()) {
            Ok(steps) => Ok(Answer::Steps(steps)),
            Err((refusal, back)) => {
                self.claim = back;
                Err(refusal)
            }
        }
    }

    /// Gives the claim back.
    pub(crate) fn release<M: Mailbox>(&mut self, image: &mut Image<M>) -> Result<Answer, Refusal>
        requires { FitsWorker image.old self.old }
        ensures acts { OfClaim ReleasesClaim image.old (claim_of self.old) result image.new (claim_of self.new) }
        ensures whole { self.new ≡ record self.old { claim = None } }
        ensures caches { self.new.caches ≡ self.old.caches }
        ensures later { GoesOnIn image.old image.new }
        ensures fits { FitsWorker image.new self.new }
    {
        let Some(claim) = self.claim.take() else {
            return Err(Refusal::NothingToDo);
        };
        claims::release(image, claim);
        Ok(Answer::Done)
    }

    /// Empties the caches.
    pub(crate) fn forget(&mut self)
        ensures claim { self.new.claim ≡ self.old.claim }
        ensures emptied { HaveNothing self.new.caches }
        ensures fits { (image : ImageView) → FitsWorker image self.old → FitsWorker image self.new }
    {
        self.worker.forget();
    }
}
