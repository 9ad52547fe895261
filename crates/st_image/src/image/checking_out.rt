//! Image::checkout and release: claims of actors.
ghost use Rattle.std.specs.Prelude.{◌≡◌, [], IfOk};
ghost use Rattle.st_turn.specs.BodyFits.{FitsSome};

use crate::history::Item;
use crate::image::Image;
use crate::recycled::Recycled;
use st_classes::refusals::Refusal;
use st_classes::token::Token;
use st_classes::values::ActorId;
use st_mailbox::mailboxes::Mailbox;
use st_turn::body::Body;
use st_turn::claim::Claim;
use std::alloc::{AllocError, Global};

/// A claim of no steps, in the memory of one that was spent, if there is one.
#[inline(always)]
fn claim_in(
    alloc: Global,
    actor: ActorId,
    token: Token,
    body: Body,
    stamp: u64,
    recycled: &mut Recycled,
) -> Result<Claim, AllocError>
    requires { FitsSome token actor body }
    ensures { IfOk result (λ c. c ≡ record { actor = actor; edits = token; before = body; after = body; steps = 0; sends = []; stamp = stamp }) }
{
    let Some(parts) = recycled.claim.take() else {
        return Claim::new(alloc, actor, token, body, stamp);
    };
    let (claim, old) = Claim::renew(parts, actor, token, body, stamp);
    recycled.token = Some(old);
    Ok(claim)
}

impl<M: Mailbox> Image<M> {
    ghost use Rattle.std.specs.Prelude.{◌≡◌, ◌+◌, ◌-◌, ◌^◌, ◌<◌, slice_get, None, Some, IfOk, OnErr, MatchResult, if◌then◌else◌};
    ghost use Rattle.st_classes.specs.Refusals.{first_of};
    ghost use Rattle.st_image.specs.Images.{world};
    ghost use Rattle.st_image.specs.ImageInvariant.{turns_open};
    ghost use Rattle.st_image.specs.Commits.{ChecksOut, HasCheckedOut, IsReleased, changed_at, checkout_rules, idle_at};

    /// Whether a checkout of an actor begins a turn, or why the checkout is refused.
    fn begins_turn(&self, actor: ActorId) -> Result<bool, Refusal>
        ensures { MatchResult result
            (λ begins. (first_of (checkout_rules self.now (slice_get (world self.now).actors actor.0)) ≡ None) × (begins ≡ idle_at (slice_get (world self.now).actors actor.0)))
            (λ e. first_of (checkout_rules self.now (slice_get (world self.now).actors actor.0)) ≡ Some e) }
    {
        let Some(found) = self.actor(actor) else {
            return Err(Refusal::UnknownActor);
        };
        if !found.is_idle() {
            return Ok(false);
        }
        if !found.has_pending() {
            return Err(Refusal::NothingToDo);
        }
        match self.room_refusal(1) {
            Some(refusal) => Err(refusal),
            None => Ok(true),
        }
    }

    /// How often the body of an actor was changed. Each change but the one that begins a turn takes a step, and no more than 2^63 - 1
    /// steps are counted.
    pub(super) fn changed(&self, actor: ActorId) -> u64
        ensures count { result ≡ changed_at self.now actor.0 }
        ensures few { result < 2 ^ 64 - 1 + turns_open (slice_get (world self.now).actors actor.0) }
    {
        self.earlier.changes(actor) + u64::from(self.changes.count(actor))
    }

    /// How often the body of an actor will have been changed after a checkout, by which an idle one begins a message.
    fn stamp_after(&self, actor: ActorId, begins: bool) -> u64
        requires { begins ≡ idle_at (slice_get (world self.now).actors actor.0) }
        ensures { result ≡ changed_at self.now actor.0 + (if begins then 1 else 0) }
    {
        let changed = self.changed(actor);
        if begins { changed + 1 } else { changed }
    }

    /// Hands out a claim of an actor whose checkout is not refused, and begins a turn if the actor is idle, as the caller knows. An
    /// error says that nothing changed.
    fn hand_out(
        &mut self,
        alloc: Global,
        actor: ActorId,
        begins: bool,
        recycled: &mut Recycled,
    ) -> Result<Claim, AllocError>
        requires allowed { first_of (checkout_rules self.old (slice_get (world self.old).actors actor.0)) ≡ None }
        requires begins { begins ≡ idle_at (slice_get (world self.old).actors actor.0) }
        ensures ok { IfOk result (λ c. HasCheckedOut self.old actor c self.new) }
        ensures err { OnErr result (self.new ≡ self.old) }
    {
        let stamp = self.stamp_after(actor, begins);
        let body = self.actors.body_to_check_out(alloc, actor, recycled)?;
        self.changes.make_room(actor)?;
        let claim = claim_in(alloc, actor, self.token.again()?, body, stamp, recycled)?;
        if begins {
            self.history.reserve(1)?;
            self.history.push(Item::Begun(actor)).unwrap();
            self.changes.raise(actor);
        }
        let next = self.actors.check_out(actor);
        self.next_from = next;
        Ok(claim)
    }

    /// A claim of an actor: its body, at the present class table. If no turn is going on, the actor begins its next pending message,
    /// and this enters the history.
    ///
    /// Refusals, in this order: `UnknownActor`; `NothingToDo` if no turn is going on and no message is pending; `HistoryFull` if a
    /// message would begin. Memory can run out only if none of these applies. A refused call changes nothing.
    pub fn checkout(&mut self, alloc: Global, actor: ActorId) -> Result<Claim, Refusal>
        ensures { ChecksOut self.old actor result self.new }
    {
        self.checkout_in(alloc, actor, &mut Recycled::none())
    }

    /// The same. The claim takes the memory of what a commit left, as far as it fits, so that quanta that are alike take no memory. What
    /// it does not take stays. A call that is refused for want of memory may have spent what was left.
    pub fn checkout_in(
        &mut self,
        alloc: Global,
        actor: ActorId,
        recycled: &mut Recycled,
    ) -> Result<Claim, Refusal>
        ensures { ChecksOut self.old actor result self.new }
    {
        let begins = self.begins_turn(actor)?;
        Ok(self.hand_out(alloc, actor, begins, recycled)?)
    }

    /// Gives a claim back: none of its steps is taken. No memory is taken.
    pub fn release(&mut self, claim: Claim)
        ensures { IsReleased self.old claim.actor self.new }
    {
        self.actors.release(claim.actor());
    }
}
