//! Steps of an actor that are taken apart from the image.
ghost use Rattle.std.specs.Prelude.{◌≡◌, [], None, Some, IfOk, IfErr, OnOk};
ghost use Rattle.std.specs.Option.{unwrap_or, IfSome};
ghost use Rattle.st_turn.specs.BodyFits.{FitsSome};
ghost use Rattle.st_turn.specs.Claims.{IsSound};
ghost use Rattle.st_turn.specs.Steps.{is_outer, step};

mod next_copy;
pub(crate) mod stepping;
mod validation;

use crate::acts::is_act_next;
use crate::body::Body;
use crate::sends::Sends;
use st_classes::keys::SiteId;
use st_classes::token::Token;
use st_classes::values::ActorId;
use st_guard::how::How;
use st_sites::site::SiteState;
use std::alloc::{AllocError, Global};
use std::marker::Model;

/// The most steps of a claim.
pub const MOST_STEPS: u32 = 4_294_967_294;

/// What became of a send.
#[derive(Clone, Copy, PartialEq, Eq, Debug)]
pub struct Sent {
    pub site: SiteId,
    /// How its target was found.
    pub how: How,
    /// The state of its site afterwards.
    pub state: SiteState,
}

/// Makes the body that the steps change, if there is none yet. Until a step is taken it is a copy of the body before. It takes the
/// memory of a spare body, if there is one.
#[inline(always)]
pub(crate) fn make_after(
    alloc: Global,
    before: &Body,
    after: &mut Option<Body>,
    spare: &mut Option<Body>,
) -> Result<(), AllocError>
    ensures ok { OnOk result (after.new ≡ Some (unwrap_or after.old before.now)) }
    ensures same { unwrap_or after.new before.now ≡ unwrap_or after.old before.now }
{
    if after.is_some() {
        return Ok(());
    }
    make_copy(alloc, before, after, spare)
}

/// The same where there is none. This is a function apart, since few calls come here.
#[inline(never)]
fn make_copy(
    alloc: Global,
    before: &Body,
    after: &mut Option<Body>,
    spare: &mut Option<Body>,
) -> Result<(), AllocError>
    requires { after.old ≡ None }
    ensures ok { OnOk result (after.new ≡ Some before.now) }
    ensures same { unwrap_or after.new before.now ≡ before.now }
{
    *after = Some(before.copy_into(alloc, spare.take())?);
    Ok(())
}

/// The parts of a claim.
#[derive(Drop)]
pub struct ClaimParts {
    pub actor: ActorId,
    pub token: Token,
    pub before: Body,
    /// None until the first steps, for which it is made as a copy of the body before; and None once the claim is taken apart.
    pub after: Option<Body>,
    /// A body that nothing reads, whose memory the body after may take.
    pub spare: Option<Body>,
    /// A second copy of the body to which the steps lead, if one was made since the last of them.
    pub next_copy: Option<Body>,
    pub steps: u32,
    pub sends: Sends,
    /// A number that identifies the body before, given by the maker of the claim.
    pub stamp: u64,
}

/// Drops a body, if there is one. Mostly there is none, and to take it would move its whole room.
#[inline(always)]
fn let_go(body: &mut Option<Body>)
    ensures { body.new ≡ None }
{
    if body.is_some() {
        drop(body.take());
    }
}

/// Makes the parts those of a claim of no steps. They keep their memory. The token that they had is returned.
fn begin_again(
    parts: &mut ClaimParts,
    actor: ActorId,
    token: Token,
    body: Body,
    stamp: u64,
) -> Token
    ensures actor { parts.new.actor ≡ actor }
    ensures token { parts.new.token ≡ token }
    ensures before { parts.new.before ≡ body }
    ensures after { parts.new.after ≡ None }
    ensures steps { parts.new.steps ≡ 0 }
    ensures sends { parts.new.sends.items ≡ [] }
    ensures stamp { parts.new.stamp ≡ stamp }
    ensures next_copy { parts.new.next_copy ≡ None }
{
    let_go(&mut parts.spare);
    parts.spare = Some(std::mem::replace(&mut parts.before, body));
    let_go(&mut parts.after);
    let_go(&mut parts.next_copy);
    parts.actor = actor;
    parts.steps = 0;
    parts.sends.clear();
    parts.stamp = stamp;
    std::mem::replace(&mut parts.token, token)
}

/// Steps of an actor at a published version, which lead from a body of the actor's to another. Contracts see the actor, the edits of
/// the version, the two bodies, the number of steps, the sends among them in order, and the stamp, a number that identifies the body
/// before.
///
/// A claim is sound by its type: its steps are steps of the definitions, none of them an act that the image does. It is handed on
/// often, so its parts lie in a box.
#[derive(Drop)]
pub struct Claim {
    parts: Box<ClaimParts>,
}

impl Model for Claim {
    ghost use Rattle.st_turn.specs.Claims.{ClaimView, IsKept, view_of};

    ghost Value = { ClaimView };

    ghost view = { λ c. view_of c.parts.value };

    ghost invariant = { λ c. IsKept c.parts.value };
}

impl Claim {
    /// A claim of no steps, from a body that fits the version, with a number that identifies the body. The copy that the steps change
    /// is made with the first of them. Only want of memory is an error.
    pub fn new(
        alloc: Global,
        actor: ActorId,
        token: Token,
        body: Body,
        stamp: u64,
    ) -> Result<Claim, AllocError>
        requires { FitsSome token actor body }
        ensures { IfOk result (λ c. c ≡ record { actor = actor; edits = token; before = body; after = body; steps = 0; sends = []; stamp = stamp }) }
    {
        let parts = ClaimParts {
            actor,
            token,
            before: body,
            after: None,
            spare: None,
            next_copy: None,
            steps: 0,
            sends: Sends::new(alloc),
            stamp,
        };
        match Box::new(alloc, parts) {
            Ok(parts) => Ok(Claim { parts }),
            Err(_) => Err(AllocError),
        }
    }

    /// The same, of parts that are no longer a claim's: it takes their memory, and no other. The token that they had is given back.
    pub fn renew(
        mut parts: Box<ClaimParts>,
        actor: ActorId,
        token: Token,
        body: Body,
        stamp: u64,
    ) -> (Claim, Token)
        requires { FitsSome token actor body }
        ensures { result.0 ≡ record { actor = actor; edits = token; before = body; after = body; steps = 0; sends = []; stamp = stamp } }
    {
        let old = begin_again(&mut parts, actor, token, body, stamp);
        (Claim { parts }, old)
    }

    /// Shows that the claim is sound.
    pub fn known(&self)
        ensures { IsSound self.now.actor self.now.edits self.now.before self.now.after self.now.steps self.now.sends }
    {
        let _steps = self.parts.steps;
    }

    #[inline]
    pub fn actor(&self) -> ActorId
        ensures { result ≡ self.now.actor }
    {
        self.parts.actor
    }

    /// The version at which the steps were taken.
    #[inline]
    pub fn token(&self) -> &Token
        ensures { result.now ≡ self.now.edits }
    {
        &self.parts.token
    }

    /// The body from which the steps lead.
    #[inline]
    pub fn before(&self) -> &Body
        ensures { result.now ≡ self.now.before }
    {
        &self.parts.before
    }

    /// The body to which the steps lead.
    #[inline]
    pub fn after(&self) -> &Body
        ensures { result.now ≡ self.now.after }
    {
        match &self.parts.after {
            Some(after) => after,
            None => &self.parts.before,
        }
    }

    /// The number of steps.
    #[inline]
    pub fn steps(&self) -> u32
        ensures { result ≡ self.now.steps }
    {
        self.parts.steps
    }

    /// The sends of the steps, of which their sums are kept.
    #[inline]
    pub fn sends(&self) -> &Sends
        ensures { result.now.items ≡ self.now.sends }
    {
        &self.parts.sends
    }

    /// The number that identifies the body before.
    #[inline]
    pub fn stamp(&self) -> u64
        ensures { result ≡ self.now.stamp }
    {
        self.parts.stamp
    }

    /// Whether the next step is an act that the image does.
    pub fn is_act_next(&self) -> bool
        ensures { result ≡ is_outer (step self.now.edits self.now.actor self.now.after) }
    {
        is_act_next(self.after(), self.parts.actor, self.parts.token.shown())
    }

    /// Takes the claim apart into the body to which the steps lead and the other parts. If no step was taken, this may need memory for
    /// a copy of the body; if there is none, the claim is handed back.
    pub fn into_parts(self, alloc: Global) -> Result<(Box<ClaimParts>, Body), Claim>
        ensures actor { IfOk result (λ r. r.0.value.actor ≡ self.actor) }
        ensures edits { IfOk result (λ r. r.0.value.token ≡ self.edits) }
        ensures before { IfOk result (λ r. r.0.value.before ≡ self.before) }
        ensures steps { IfOk result (λ r. r.0.value.steps ≡ self.steps) }
        ensures sends { IfOk result (λ r. r.0.value.sends.items ≡ self.sends) }
        ensures stamp { IfOk result (λ r. r.0.value.stamp ≡ self.stamp) }
        ensures after { IfOk result (λ r. r.1 ≡ self.after) }
        ensures without { IfOk result (λ r. r.0.value.after ≡ None) }
        ensures next_copy { IfOk result (λ r. IfSome r.0.value.next_copy (λ t. t ≡ self.after)) }
        ensures back { IfErr result (λ c. c ≡ self) }
    {
        let Claim { mut parts } = self;
        let after = match parts.after.take() {
            Some(after) => after,
            None => match parts.before.copy(alloc) {
                Ok(after) => after,
                Err(_) => return Err(Claim { parts }),
            },
        };
        Ok((parts, after))
    }

    /// Puts the parts of a claim together again. No memory is taken.
    pub fn from_parts(mut parts: Box<ClaimParts>, after: Body) -> Claim
        requires sound { IsSound parts.value.actor parts.value.token parts.value.before after parts.value.steps parts.value.sends.items }
        requires next_copy { IfSome parts.value.next_copy (λ t. t ≡ after) }
        ensures { result ≡ record { actor = parts.value.actor; edits = parts.value.token; before = parts.value.before; after = after; steps = parts.value.steps; sends = parts.value.sends.items; stamp = parts.value.stamp } }
    {
        parts.after = Some(after);
        Claim { parts }
    }
}
