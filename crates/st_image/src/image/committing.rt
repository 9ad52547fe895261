//! Image::commit: the steps of a claim become the actor's.
ghost use Rattle.std.specs.Prelude.{◌≡◌, ◌<◌, ℕ, length, vec_len, vec_capacity, OnOk};
ghost use Rattle.st_image.specs.Changes.{change_count};
ghost use Rattle.st_image.specs.Tallies.{HasPlaces, SameTallies};

use crate::acting::put_steps;
use crate::changes::Changes;
use crate::counts::MOST_COUNTED;
use crate::failures::ended_by_fault;
use crate::history::Item;
use crate::image::Image;
use crate::recycled::Recycled;
use crate::tallies::Tallies;
use st_classes::keys::SiteId;
use st_classes::refusals::Refusal;
use st_classes::values::ActorId;
use st_classes::version::Version;
use st_mailbox::mailboxes::Mailbox;
use st_turn::acts::next_site;
use st_turn::claim::Claim;
use st_turn::sends::Sends;
use std::alloc::{AllocError, Global};

/// Makes room for one more item of a history, for the changes of an actor's body, and for what is counted of sends and of an act behind
/// them. For want of memory it makes some of it. Nothing that was counted changes.
#[inline]
fn make_room(
    history: &mut Vec<Item>,
    changes: &mut Changes,
    tallies: &mut Tallies,
    actor: ActorId,
    sends: &Sends,
    act: Option<SiteId>,
) -> Result<(), AllocError>
    ensures items { history.new.items ≡ history.old.items }
    ensures changes { (a : ℕ) → change_count changes.new a ≡ change_count changes.old a }
    ensures tallies { SameTallies tallies.old tallies.new }
    ensures room { OnOk result (vec_len history.new < vec_capacity history.new) }
    ensures place { OnOk result (actor.0 < length changes.new) }
    ensures places { OnOk result (HasPlaces tallies.new sends.now.items act) }
{
    history.reserve(1)?;
    changes.make_room(actor)?;
    tallies.make_room(sends, act)
}

impl<M: Mailbox> Image<M> {
    ghost use Rattle.std.specs.Prelude.{◌≡◌, ◌≢◌, ◌↔◌, ◌<◌, ◌==◌, [], ◌∷◌, if◌then◌else◌, IsTrue, None, MatchOption, IfErr, OnOk};
    ghost use Rattle.st_classes.specs.EditLists.{Begins};
    ghost use Rattle.st_classes.specs.Refusals.{first_of};
    ghost use Rattle.st_image.specs.Images.{no_room, too_many_steps, world};
    ghost use Rattle.st_image.specs.Commits.{Commits, CommitAllowed, CommitRefused, HasCommitted, IsAsBefore, IsUnchanged, KnowsBody, RefusesCommit, Survives, act_site, changed_at, stands_before_act, steps_of};

    /// Whether the body of an actor was changed as often as the stamp of a claim says.
    fn is_stamped(&self, claim: &Claim) -> bool
        ensures { IsTrue result ↔ (claim.now.stamp ≡ changed_at self.now claim.now.actor.0) }
    {
        let changed = self.changed(claim.actor());
        claim.stamp() == changed
    }

    /// Whether an actor is there and has the body that a claim began with, which is compared.
    fn has_body(&self, claim: &Claim) -> bool
        ensures { IsTrue result ↔ IsUnchanged self.now claim.now }
    {
        match self.actor(claim.actor()) {
            Some(found) => found.body().is_same(claim.before()),
            None => false,
        }
    }

    /// Why a claim whose edits begin those of the class table is stale, if it is. It looks through the edits since alone.
    fn stale_refusal(&self, claim: &Claim) -> Option<Refusal>
        requires { Begins claim.now.edits (world self.now).edits }
        ensures { MatchOption result (Survives self.now claim.now) (λ e. CommitRefused self.now claim.now e) }
    {
        let version = self.version();
        if claim.survives(version) {
            return None;
        }
        Some(Refusal::Stale {
            version: version.edits(),
        })
    }

    /// How many items the commit of this many steps adds to the history: none for no steps.
    fn items_to_commit(steps: u32) -> u32
        ensures items { result ≡ (if steps == 0 then 0 else 1) }
        ensures few { result < 3 }
    {
        if steps == 0 { 0 } else { 1 }
    }

    /// Why the history has no place for this many items more, or the count of steps none for this many steps, if so.
    fn steps_room_refusal(&self, items: u32, steps: u32) -> Option<Refusal>
        requires { items < 3 }
        ensures { result ≡ first_of (no_room self.now items ∷ too_many_steps self.now steps ∷ []) }
    {
        let counted = self.counted().steps;
        if self.room_refusal(items).is_some() || MOST_COUNTED - counted < u64::from(steps) {
            return Some(Refusal::HistoryFull);
        }
        None
    }

    /// Why the history has no place for what a commit adds, or the count of steps none, if so.
    fn full_refusal(&self, claim: &Claim, steps: u32) -> Option<Refusal>
        requires survives { Survives self.now claim.now }
        requires unchanged { IsUnchanged self.now claim.now }
        requires steps { steps ≡ steps_of claim.now }
        ensures { MatchOption result (CommitAllowed self.now claim.now) (λ e. CommitRefused self.now claim.now e) }
    {
        self.steps_room_refusal(Self::items_to_commit(steps), steps)
    }

    /// How many steps the commit of a claim is: the image takes one more if an act is next.
    fn steps_to_commit(claim: &Claim, is_act_next: bool) -> u32
        requires { is_act_next ≡ stands_before_act claim.now }
        ensures { result ≡ steps_of claim.now }
    {
        claim.known();
        if is_act_next {
            claim.steps() + 1
        } else {
            claim.steps()
        }
    }

    /// The site of the step that the image takes, if an act is next.
    fn site_to_commit(claim: &Claim, is_act_next: bool) -> Option<SiteId>
        requires { is_act_next ≡ stands_before_act claim.now }
        ensures { result ≡ act_site claim.now }
    {
        if is_act_next {
            next_site(claim.after())
        } else {
            None
        }
    }

    /// Takes the steps of a claim, at least one. If memory runs out, the claim is handed back.
    fn take_steps(
        &mut self,
        alloc: Global,
        claim: Claim,
        is_act_next: bool,
        steps: u32,
        recycled: &mut Recycled,
    ) -> Result<(), Claim>
        requires allowed { CommitAllowed self.old claim }
        requires act { is_act_next ≡ stands_before_act claim }
        requires steps { steps ≡ steps_of claim }
        requires some { 0 < steps }
        ensures ok { OnOk result (HasCommitted self.old claim steps self.new) }
        ensures back { IfErr result (λ c. c ≡ claim) }
        ensures err { IfErr result (λ c. IsAsBefore self.old self.new) }
    {
        claim.known();
        let taken = u64::from(steps);
        let step = self.counted().steps + taken;
        let actor = claim.actor();
        let site = Self::site_to_commit(&claim, is_act_next);
        let version = self.token.shown();
        let Ok(()) = make_room(
            &mut self.history,
            &mut self.changes,
            &mut self.tallies,
            actor,
            claim.sends(),
            site,
        ) else {
            return Err(claim);
        };
        let (mut parts, after) = match claim.into_parts(alloc) {
            Ok(both) => both,
            Err(claim) => return Err(claim),
        };
        match put_steps(
            alloc,
            &self.names,
            version,
            self.settings.capacity,
            &mut self.actors,
            actor,
            after,
            &mut parts.next_copy,
            is_act_next,
            &mut recycled.body,
        ) {
            Ok(_) => {
                let ended = ended_by_fault(&self.base, &self.actors, actor);
                self.tallies.count(&parts.sends, site);
                self.actors.release(actor);
                self.changes.raise(actor);
                self.history.push_reserved(Item::Ran { actor, steps });
                self.counts.steps += taken;
                recycled.claim = self.failures.keep_if_failed(ended, step, parts, steps - 1);
                Ok(())
            }
            Err(after) => Err(Claim::from_parts(parts, after)),
        }
    }

    /// Refuses a claim, which is spent unless the history is full.
    fn refuse(&mut self, claim: Claim, refusal: Refusal) -> (Refusal, Option<Claim>)
        requires { CommitRefused self.old claim refusal }
        ensures { RefusesCommit self.old claim result.0 result.1 self.new }
    {
        if let Refusal::HistoryFull = refusal {
            return (refusal, Some(claim));
        }
        self.actors.release(claim.actor());
        (refusal, None)
    }

    /// Commits a claim that survives, whose actor still has the body that it began with.
    fn commit_unchanged(
        &mut self,
        alloc: Global,
        claim: Claim,
        recycled: &mut Recycled,
    ) -> Result<u32, (Refusal, Option<Claim>)>
        requires survives { Survives self.old claim }
        requires unchanged { IsUnchanged self.old claim }
        ensures { Commits self.old claim result self.new }
    {
        claim.known();
        let is_act_next = claim.is_act_next();
        let steps = Self::steps_to_commit(&claim, is_act_next);
        if let Some(refusal) = self.full_refusal(&claim, steps) {
            return Err(self.refuse(claim, refusal));
        }
        if steps == 0 {
            self.actors.release(claim.actor());
            return Ok(0);
        }
        match self.take_steps(alloc, claim, is_act_next, steps, recycled) {
            Ok(()) => Ok(steps),
            Err(claim) => Err((Refusal::NoMemory, Some(claim))),
        }
    }

    /// As `commit`, of a claim whose edits begin those of the class table, and whose stamp tells its body, as the caller knows. No
    /// lists of edits are compared, nor are the bodies where the actor's was not changed since the checkout.
    pub fn commit_unchecked(
        &mut self,
        alloc: Global,
        claim: Claim,
    ) -> Result<u32, (Refusal, Option<Claim>)>
        requires begins { Begins claim.edits (world self.old).edits }
        requires body { KnowsBody self.old claim }
        ensures { Commits self.old claim result self.new }
    {
        self.commit_recycling(alloc, claim, &mut Recycled::none())
    }

    /// The same, and what the commit has no more use for is left to the caller, for his next checkout, or to let it go when he likes. It
    /// takes the place of what lay there before.
    pub fn commit_recycling(
        &mut self,
        alloc: Global,
        claim: Claim,
        recycled: &mut Recycled,
    ) -> Result<u32, (Refusal, Option<Claim>)>
        requires begins { Begins claim.edits (world self.old).edits }
        requires body { KnowsBody self.old claim }
        ensures { Commits self.old claim result self.new }
    {
        if let Some(refusal) = self.stale_refusal(&claim) {
            return Err(self.refuse(claim, refusal));
        }
        if !self.is_stamped(&claim) && !self.has_body(&claim) {
            return Err(self.refuse(claim, Refusal::Changed));
        }
        self.commit_unchanged(alloc, claim, recycled)
    }

    /// The steps of a claim become the actor's, and enter the history as one item; no item is added for no steps. Where the claim
    /// stands before a step that the image takes, that is taken too. The answer is how many steps that were.
    ///
    /// Refusals, in this order: `Stale` where the claim's edits do not begin those of the class table, or where an edit since the
    /// checkout touched a selector that the steps used: that of the first message, if it was dispatched, or of a send, super sends
    /// among them; `Changed` where the actor is not there or has another body than the claim began with; either spends the claim. Then
    /// `HistoryFull`, also where more than 2^63 - 1 steps would be counted. Memory can run out only where none of these applies. Either of
    /// the last two hands the claim back, and nothing changes.
    pub fn commit(&mut self, alloc: Global, claim: Claim) -> Result<u32, (Refusal, Option<Claim>)>
        ensures { Commits self.old claim result self.new }
    {
        if !claim.token().shown().begins(self.version()) {
            let version = self.version().edits();
            return Err(self.refuse(claim, Refusal::Stale { version }));
        }
        if let Some(refusal) = self.stale_refusal(&claim) {
            return Err(self.refuse(claim, refusal));
        }
        if !self.has_body(&claim) {
            return Err(self.refuse(claim, Refusal::Changed));
        }
        self.commit_unchanged(alloc, claim, &mut Recycled::none())
    }
}
