//! Plain steps of a claim's actor, beside the claim: each send is a walk of the class table.
ghost use Rattle.st_turn.specs.BodyFits.{FitsSome};

use st_classes::values::ActorId;
use st_classes::version::Version;
use st_turn::body::{Body, Stop};
use st_turn::claim::Claim;
use st_turn::plain::step_plain;
use std::alloc::{AllocError, Global};

/// Where plain steps led to.
#[derive(Drop)]
pub(crate) struct PlainSteps {
    pub body: Box<Body>,
    pub taken: u32,
    pub stop: Stop,
}

fn take_step(
    alloc: Global,
    body: &mut Body,
    actor: ActorId,
    version: &Version,
) -> Result<Stop, AllocError>
    requires { FitsSome version.now actor body.old }
    ensures { FitsSome version.now actor body.new }
{
    step_plain(alloc, body, actor, version)
}

/// Takes up to this many steps, and says how many there were and what stopped them.
fn take_steps(
    alloc: Global,
    body: &mut Body,
    actor: ActorId,
    version: &Version,
    limit: u32,
) -> Result<(u32, Stop), AllocError>
    requires { FitsSome version.now actor body.old }
{
    for taken in 0..limit {
        match take_step(alloc, body, actor, version)? {
            Stop::More => {}
            stop => return Ok((taken, stop)),
        }
    }
    Ok((limit, Stop::More))
}

fn boxed(alloc: Global, body: Body) -> Result<Box<Body>, AllocError> {
    Ok(Box::new(alloc, body)?)
}

/// Up to this many plain steps from where a claim leads to.
pub(crate) fn plain_steps(
    alloc: Global,
    claim: &Claim,
    limit: u32,
) -> Result<PlainSteps, AllocError> {
    claim.known();
    let mut body = claim.after().copy(alloc)?;
    let version = claim.token().shown();
    let (taken, stop) = take_steps(alloc, &mut body, claim.actor(), version, limit)?;
    Ok(PlainSteps {
        body: boxed(alloc, body)?,
        taken,
        stop,
    })
}

impl PlainSteps {
    /// Whether a claim was led to the same place by as many steps.
    pub(crate) fn lead_to(&self, claim: &Claim) -> bool {
        claim.steps() == self.taken && claim.after().is_same(&self.body)
    }
}
