//! The steps of a spent claim, taken again.
ghost use Rattle.std.specs.Prelude.{◌≡◌, Some, IfOk, OnOk};
ghost use Rattle.st_turn.specs.BodyFits.{FitsSome};
ghost use Rattle.st_turn.specs.Reruns.{LeadsSomewhere};
ghost use Rattle.st_turn.specs.Steps.{own_steps};

use crate::body::Body;
use crate::claim::ClaimParts;
use crate::plain::step_plain;
use st_classes::values::ActorId;
use st_classes::version::Version;
use std::alloc::{AllocError, Global};
use std::marker::Model;

/// Takes this many steps of an actor's own again.
fn take_again(
    alloc: Global,
    body: &mut Body,
    actor: ActorId,
    version: &Version,
    steps: u32,
) -> Result<(), AllocError>
    requires fits { FitsSome version.now actor body.old }
    requires leads { LeadsSomewhere version.now actor steps body.old }
    ensures { OnOk result (own_steps version.now actor steps body.old ≡ Some body.new) }
{
    version.known();
    let mut left = steps;
    'steps: while left > 0 {
        // One is there to be taken, so it was taken.
        let _more = step_plain(alloc, body, actor, version)?;
        left -= 1;
    }
    Ok(())
}

/// The parts of a spent claim, and how many of its steps are meant. Contracts see the body to which these lead. It is not kept: who asks
/// for it has the steps taken again.
#[derive(Drop)]
pub struct Rerun {
    parts: Box<ClaimParts>,
    steps: u32,
}

impl Model for Rerun {
    ghost use Rattle.std.specs.Prelude.{Some, ◌≡◌};
    ghost use Rattle.std.specs.Option.{unwrap_or};
    ghost use Rattle.st_turn.specs.declared.body.Body.{Body as BodyOf};
    ghost use Rattle.st_turn.specs.BodyFits.{FitsSome};
    ghost use Rattle.st_turn.specs.Reruns.{LeadsSomewhere};
    ghost use Rattle.st_turn.specs.Steps.{own_steps};

    ghost Value = { BodyOf };

    ghost view = { λ r. unwrap_or (own_steps r.parts.value.token r.parts.value.actor r.steps r.parts.value.before) r.parts.value.before };

    ghost invariant = { λ r. FitsSome r.parts.value.token r.parts.value.actor r.parts.value.before × LeadsSomewhere r.parts.value.token r.parts.value.actor r.steps r.parts.value.before };
}

impl Rerun {
    ghost use Rattle.std.specs.Prelude.{◌≡◌, Some, OnOk};

    /// The first steps of a claim, so many of them. Bodies that the claim had beside the one before are let go.
    pub fn of(mut parts: Box<ClaimParts>, steps: u32) -> Rerun
        requires fits { FitsSome parts.value.token parts.value.actor parts.value.before }
        requires leads { LeadsSomewhere parts.value.token parts.value.actor steps parts.value.before }
        ensures { own_steps parts.value.token parts.value.actor steps parts.value.before ≡ Some result }
    {
        parts.spare = None;
        parts.next_copy = None;
        Rerun { parts, steps }
    }

    /// The body to which the steps lead: they are taken again, from a copy of the body before.
    pub fn body(&self, alloc: Global) -> Result<Body, AllocError>
        ensures { IfOk result (λ b. b ≡ self.now) }
    {
        let mut body = self.parts.before.copy(alloc)?;
        let version = self.parts.token.shown();
        take_again(alloc, &mut body, self.parts.actor, version, self.steps)?;
        Ok(body)
    }

    /// The parts of the claim, whose memory another claim may take.
    pub fn into_parts(self) -> Box<ClaimParts> {
        self.parts
    }
}
