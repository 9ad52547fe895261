//! Events of workers.
ghost use Rattle.std.specs.Prelude.{◌≡◌, IfOk, IsTrue};
ghost use Rattle.st_turn.specs.BodyFits.{FitsSome};
ghost use Rattle.st_image.specs.Images.{world};

use crate::model::surviving::is_touched;
use crate::model::{Done, Model, ModelActor, ModelClaim};
use crate::workers::Answered;
use st_classes::refusals::Refusal;
use st_classes::token::Token;
use st_classes::values::ActorId;
use st_classes::version::Version;
use st_image::image::Image;
use st_mailbox::mailboxes::Mailbox;
use st_system::events::Answer;
use st_turn::acts::{next_act, reply};
use st_turn::body::{Body, Phase, Stop};
use st_turn::claim::Claim;
use st_turn::plain::step_plain;
use std::alloc::{AllocError, Global};

/// Whether an actor of the image has this body: then the body is known to fit the image's class table.
fn is_the_images<M: Mailbox>(image: &Image<M>, actor: ActorId, body: &Body) -> bool
    ensures { IsTrue result → FitsSome (world image.now).edits actor body.now }
{
    image.known();
    let Some(theirs) = image.body(actor) else {
        return false;
    };
    body.is_same(theirs)
}

/// A claim of no steps, of a body that is the image's, or `Changed` is answered.
fn claim_of<M: Mailbox>(
    alloc: Global,
    actor: ActorId,
    body: &Body,
    image: &Image<M>,
) -> Result<Claim, Refusal> {
    if !is_the_images(image, actor, body) {
        return Err(Refusal::Changed);
    }
    let table = image.version().again(alloc)?;
    let token = Token::publish(alloc, table)?;
    let body = body.copy(alloc)?;
    Ok(Claim::new(alloc, actor, token, body, 0)?)
}

fn start_of(alloc: Global, claim: Claim) -> Result<ModelClaim, AllocError> {
    Ok(ModelClaim {
        start: Box::new(alloc, claim)?,
        steps: 0,
    })
}

pub(super) fn take_step(
    alloc: Global,
    body: &mut Body,
    actor: ActorId,
    version: &Version,
) -> Result<Stop, AllocError>
    requires { FitsSome version.now actor body.old }
    ensures { FitsSome version.now actor body.new }
{
    step_plain(alloc, body, actor, version)
}

fn take_steps(
    alloc: Global,
    body: &mut Body,
    actor: ActorId,
    version: &Version,
    steps: u32,
) -> Result<(), AllocError>
    requires { FitsSome version.now actor body.old }
    ensures { FitsSome version.now actor body.new }
{
    for _step in 0..steps {
        take_step(alloc, body, actor, version)?;
    }
    Ok(())
}

/// The body after this many steps of a claim's actor.
fn body_after(alloc: Global, start: &Claim, steps: u32) -> Result<Body, AllocError>
    ensures { IfOk result (λ body. FitsSome start.now.edits start.now.actor body) }
{
    start.known();
    let mut body = start.after().copy(alloc)?;
    let actor = start.actor();
    let version = start.token().shown();
    take_steps(alloc, &mut body, actor, version, steps)?;
    Ok(body)
}

/// One step more of a claim's actor.
fn step_after(alloc: Global, start: &Claim, steps: u32) -> Result<Stop, AllocError> {
    let mut body = body_after(alloc, start, steps)?;
    let actor = start.actor();
    let version = start.token().shown();
    step_plain(alloc, &mut body, actor, version)
}

impl ModelActor {
    /// The first message that is pending is begun. `NothingToDo` says that none is.
    fn begin(&mut self, alloc: Global) -> Result<(), Refusal> {
        let Some(message) = self.pending().first() else {
            return Err(Refusal::NothingToDo);
        };
        let message = message.copy(alloc)?;
        self.body.begin(message.selector, message.args);
        self.begun = self.begun.saturating_add(1);
        Ok(())
    }

    /// The body becomes another one, which may end the turn.
    fn put(&mut self, body: Body) -> Result<(), AllocError> {
        if let Phase::Done(outcome) = &body.phase {
            self.results.push(*outcome)?;
        }
        self.body = body;
        Ok(())
    }
}

impl Model {
    /// What a worker has, who is there.
    fn claim(&mut self, worker: u32) -> Result<&mut Option<ModelClaim>, Refusal> {
        self.claims
            .get_mut(worker as usize)
            .ok_or(Refusal::BadArguments)
    }

    /// An idle actor begins its next message.
    fn begin(&mut self, alloc: Global, actor: ActorId) -> Result<(), Refusal> {
        let Some(kept) = self.actor_mut(actor) else {
            return Err(Refusal::UnknownActor);
        };
        if kept.body.is_idle() {
            kept.begin(alloc)?;
            self.note(Done::Begun(actor))?;
        }
        Ok(())
    }

    /// What an actor is at now is handed out.
    fn hand_out<M: Mailbox>(
        &self,
        alloc: Global,
        actor: ActorId,
        image: &Image<M>,
    ) -> Result<ModelClaim, Refusal> {
        let Some(kept) = self.actor(actor) else {
            return Err(Refusal::UnknownActor);
        };
        let claim = claim_of(alloc, actor, &kept.body, image)?;
        Ok(start_of(alloc, claim)?)
    }

    /// A worker, who is there, has a claim from here on.
    fn keep(&mut self, worker: u32, claim: ModelClaim) -> Answered {
        *self.claim(worker)? = Some(claim);
        Ok(Answer::Done)
    }

    pub(super) fn check_out<M: Mailbox>(
        &mut self,
        alloc: Global,
        worker: u32,
        actor: ActorId,
        image: &Image<M>,
    ) -> Answered {
        if self.claim(worker)?.is_some() {
            return Err(Refusal::BadArguments);
        }
        self.begin(alloc, actor)?;
        let claim = self.hand_out(alloc, actor, image)?;
        self.keep(worker, claim)
    }

    pub(super) fn step(&mut self, alloc: Global, worker: u32) -> Answered {
        let Some(claim) = self.claim(worker)? else {
            return Err(Refusal::NothingToDo);
        };
        let stop = step_after(alloc, &claim.start, claim.steps)?;
        if stop == Stop::More {
            claim.steps = claim.steps.saturating_add(1);
        }
        Ok(Answer::Stopped(stop))
    }

    /// Why a claim is refused, if it is.
    fn refused_claim(
        &self,
        alloc: Global,
        claim: &ModelClaim,
        version: &Version,
    ) -> Result<Option<Refusal>, AllocError> {
        let start: &Claim = &claim.start;
        if is_touched(alloc, start, claim.steps, version)? {
            return Ok(Some(Refusal::Stale {
                version: self.edits,
            }));
        }
        Ok(match self.actor(start.actor()) {
            Some(kept) if kept.body.is_same(start.before()) => None,
            _ => Some(Refusal::Changed),
        })
    }

    /// The act that is next after the steps of a claim is done, if there is one, and how many steps it is.
    fn act_next(&mut self, alloc: Global, start: &Claim, body: &mut Body) -> Result<u32, AllocError>
        requires { FitsSome start.now.edits start.now.actor body.old }
    {
        let actor = start.actor();
        let version = start.token().shown();
        let Some(act) = next_act(alloc, body, actor, version)? else {
            return Ok(0);
        };
        let answer = self.perform(alloc, actor, &act)?;
        reply(body, actor, version, answer);
        Ok(1)
    }

    /// The steps of a claim that is not refused are the actor's.
    fn take(&mut self, alloc: Global, claim: &ModelClaim) -> Result<u32, AllocError> {
        let start: &Claim = &claim.start;
        let actor = start.actor();
        let mut body = body_after(alloc, start, claim.steps)?;
        let acts = self.act_next(alloc, start, &mut body)?;
        let steps = claim.steps.saturating_add(acts);
        if steps == 0 {
            return Ok(0);
        }
        self.note(Done::Ran(actor, steps))?;
        if let Some(kept) = self.actor_mut(actor) {
            kept.put(body)?;
        }
        Ok(steps)
    }

    /// The claim of a worker, who is there and has none from here on.
    fn take_claim(&mut self, worker: u32) -> Result<ModelClaim, Refusal> {
        match self.claims.get_mut(worker as usize) {
            Some(claim) => claim.take().ok_or(Refusal::NothingToDo),
            None => Err(Refusal::BadArguments),
        }
    }

    pub(super) fn commit(&mut self, alloc: Global, worker: u32, version: &Version) -> Answered {
        let claim = self.take_claim(worker)?;
        if let Some(refusal) = self.refused_claim(alloc, &claim, version)? {
            return Err(refusal);
        }
        let steps = self.take(alloc, &claim)?;
        self.counted.steps = self.counted.steps.saturating_add(u64::from(steps));
        Ok(Answer::Steps(steps))
    }

    pub(super) fn release(&mut self, worker: u32) -> Answered {
        self.take_claim(worker)?;
        Ok(Answer::Done)
    }

    pub(super) fn forget(&mut self, worker: u32) -> Answered {
        self.claim(worker)?;
        Ok(Answer::Done)
    }
}
