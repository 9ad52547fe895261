//! One actor: its body, its mailbox and how its turns ended.
ghost use Rattle.std.specs.Prelude.{◌≡◌, None};
ghost use Rattle.st_turn.specs.Idle.{is_idle as idle};
ghost use Rattle.st_turn.specs.Steps.{step};

mod copying;

use crate::recycled::Recycled;
use crate::results::Results;
use st_classes::faults::Fault;
use st_classes::refusals::Refusal;
use st_classes::values::{ActorId, ClassId, Value};
use st_classes::version::Version;
use st_mailbox::mailboxes::Mailbox;
use st_mailbox::messages::Message;
use st_turn::acts::reply;
use st_turn::body::{Body, Outcome, Phase};
use std::alloc::{AllocError, Global};
use std::marker::Model;

/// Lets the copy of a body go, if there is one.
#[inline(always)]
fn drop_next_copy(next_copy: &mut Option<Body>)
    ensures { next_copy.new ≡ None }
{
    if next_copy.is_some() {
        *next_copy = None;
    }
}

/// An actor. Contracts see what is kept of it.
#[derive(Drop)]
pub(crate) struct Actor<M: Mailbox> {
    class: ClassId,
    /// What it accepted and has not begun.
    mailbox: M,
    body: Body,
    /// A copy of the body, if there is one, for the next claim.
    next_copy: Option<Body>,
    /// The number of the last message that it sent.
    last: u64,
    /// How many messages its mailbox accepted.
    accepted: u64,
    /// How its turns ended.
    results: Results,
}

impl<M: Mailbox> Model for Actor<M> {
    ghost use Rattle.st_image.specs.ActorViews.{ActorView};

    ghost Value = { ActorView };

    ghost view = { λ a. record { class = a.class; capacity = (M.shown a.mailbox).capacity; is_open = (M.shown a.mailbox).is_open; body = a.body; last = a.last; pending = (M.shown a.mailbox).items; accepted = a.accepted; results = record { items = a.results.items; count = a.results.count } } };

    ghost use Rattle.std.specs.Prelude.{◌≡◌, ◌+◌, ◌≤◌, length, if◌then◌else◌, IfSome};
    ghost use Rattle.st_turn.specs.Idle.{is_idle as idle_phase};

    ghost invariant = { λ a. (a.results.count + length (M.shown a.mailbox).items + (if idle_phase a.body.phase then 0 else 1) ≤ a.accepted + 1) × IfSome a.next_copy (λ t. t ≡ a.body) };
}

impl<M: Mailbox> Actor<M> {
    ghost use Rattle.std.specs.Prelude.{◌≡◌, ◌+◌, ◌<◌, ◌≤◌, ◌^◌, ◌==◌, length, not, true, false, IfOk, IfErr, IfSome, OnOk, OnErr, Ok, Err};
    ghost use Rattle.st_classes.specs.Refusals.{first_of};
    ghost use Rattle.st_turn.specs.declared.acts.Act.{Act as ActOf};
    ghost use Rattle.st_turn.specs.BodyFits.{FitsSome};
    ghost use Rattle.st_turn.specs.StepResults.{IsAct};
    ghost use Rattle.st_turn.specs.Steps.{outer, reply_body};
    ghost use Rattle.st_mailbox.specs.Mailboxes.{box_rules};
    ghost use Rattle.st_image.specs.NewestResults.{kept_outcome};
    ghost use Rattle.st_image.specs.ActorViews.{view_after_begin, is_ready_view, new_actor_view, view_after_steps, view_checked_out, view_with_message};

    /// A new actor with a body and an open mailbox.
    pub(crate) fn new(
        alloc: Global,
        class: ClassId,
        capacity: u32,
        body: Body,
    ) -> Result<Actor<M>, AllocError>
        requires some { 1 ≤ capacity }
        requires few { capacity ≤ 1024 }
        ensures { IfOk result (λ a. a ≡ new_actor_view class capacity body) }
    {
        Ok(Actor {
            class,
            mailbox: M::with_capacity(alloc, capacity)?,
            body,
            next_copy: None,
            last: 0,
            accepted: 0,
            results: Results::new(alloc)?,
        })
    }

    pub(crate) fn class(&self) -> ClassId
        ensures { result ≡ self.now.class }
    {
        self.class
    }

    pub(crate) fn body(&self) -> &Body
        ensures { result.now ≡ self.now.body }
    {
        &self.body
    }

    pub(crate) fn mailbox(&self) -> &M
        ensures { M.shown result.now ≡ record { items = self.now.pending; capacity = self.now.capacity; is_open = self.now.is_open } }
    {
        &self.mailbox
    }

    pub(crate) fn is_open(&self) -> bool
        ensures { result ≡ self.now.is_open }
    {
        self.mailbox.is_open()
    }

    /// The number of the last message that it sent, 0 where it sent none.
    pub(crate) fn last(&self) -> u64
        ensures { result ≡ self.now.last }
    {
        self.last
    }

    /// How many messages its mailbox accepted.
    pub(crate) fn accepted(&self) -> u64
        ensures { result ≡ self.now.accepted }
    {
        self.accepted
    }

    /// Whether no turn is going on.
    pub(crate) fn is_idle(&self) -> bool
        ensures { result ≡ idle self.now.body.phase }
    {
        self.body.is_idle()
    }

    pub(crate) fn has_pending(&self) -> bool
        ensures { result ≡ not (length self.now.pending == 0) }
    {
        self.mailbox.len() != 0
    }

    /// Whether it is in a turn or has a message pending.
    pub(crate) fn is_ready(&self) -> bool
        ensures { result ≡ is_ready_view self.now }
    {
        !self.is_idle() || self.has_pending()
    }

    /// How many of its turns have ended.
    pub(crate) fn ended(&self) -> u64
        ensures { result ≡ self.now.results.count }
    {
        self.results.count()
    }

    /// How a turn ended, where the first of the results is that of a turn of this number.
    pub(crate) fn outcome(&self, first: u64, turn: u64) -> Result<Outcome, Refusal>
        ensures { result ≡ kept_outcome first self.now.results turn }
    {
        if turn < first {
            return Err(Refusal::Expired);
        }
        self.results.outcome(turn - first)
    }

    /// Why the mailbox refuses a message, if it does.
    pub(crate) fn refusal(&self) -> Option<Refusal>
        ensures { result ≡ first_of (box_rules self.now.is_open self.now.capacity (length self.now.pending)) }
    {
        if !self.mailbox.is_open() {
            return Some(Refusal::Closed);
        }
        if self.mailbox.capacity() <= self.mailbox.len() {
            return Some(Refusal::Full);
        }
        None
    }

    /// Puts a message last in the mailbox, which does not refuse it. The answer is how many messages the mailbox has accepted.
    pub(crate) fn take_in(&mut self, message: Message) -> u64
        requires few { self.old.accepted < 2 ^ 63 }
        requires accepts { first_of (box_rules self.old.is_open self.old.capacity (length self.old.pending)) ≡ None }
        ensures count { result ≡ self.old.accepted + 1 }
        ensures message { self.new ≡ view_with_message message self.old }
    {
        let Ok(()) = self.mailbox.accept(message) else {
            unreachable!()
        };
        self.accepted += 1;
        self.accepted
    }

    /// Its last message has this number.
    pub(crate) fn set_last(&mut self, number: u64)
        ensures { self.new ≡ record self.old { last = number } }
    {
        self.last = number;
    }

    /// Its mailbox accepts no more.
    pub(crate) fn close(&mut self)
        ensures { self.new ≡ record self.old { is_open = false } }
    {
        self.mailbox.close();
    }

    /// Begins the first pending message, where one is pending.
    pub(crate) fn begin(&mut self)
        ensures { self.new ≡ view_after_begin self.old }
    {
        if let Some(message) = self.mailbox.take() {
            drop_next_copy(&mut self.next_copy);
            self.body.begin(message.selector, message.args);
        }
    }

    /// A copy of the body: its next copy, if there is one.
    #[inline(always)]
    fn take_copy(&mut self, alloc: Global, recycled: &mut Recycled) -> Result<Body, AllocError>
        ensures same { self.new ≡ self.old }
        ensures copy { IfOk result (λ b. b ≡ self.old.body) }
    {
        // Mostly there is none, and to take it would move its whole room.
        if self.next_copy.is_some() {
            if let Some(next_copy) = self.next_copy.take() {
                return Ok(next_copy);
            }
        }
        self.body.copy_into(alloc, recycled.spare_for(&self.body))
    }

    /// The body that a checkout hands out: that of an idle actor has begun the first pending message, where one is pending. It takes
    /// the memory of a body that was left, if that fits.
    #[inline(always)]
    pub(crate) fn body_to_check_out(
        &mut self,
        alloc: Global,
        recycled: &mut Recycled,
    ) -> Result<Body, AllocError>
        ensures same { self.new ≡ self.old }
        ensures body { IfOk result (λ b. b ≡ (view_checked_out self.old).body) }
    {
        let mut body = self.take_copy(alloc, recycled)?;
        if body.is_idle() {
            if let Some(message) = self.mailbox.item(0) {
                let message = message.copy(alloc)?;
                body.begin(message.selector, message.args);
            }
        }
        Ok(body)
    }

    /// Begins the first pending message, where the actor is idle and one is pending.
    pub(crate) fn check_out(&mut self)
        ensures { self.new ≡ view_checked_out self.old }
    {
        if self.is_idle() {
            self.begin();
        }
    }

    /// The actor has this body after steps of its own, and the copy of it, if there is one; the body before is given out. A turn that
    /// ended adds its result. For want of memory nothing changes, and the body is given back.
    #[inline(always)]
    pub(crate) fn put_body(
        &mut self,
        body: Body,
        next_copy: &mut Option<Body>,
    ) -> Result<Body, Body>
        requires busy { idle self.old.body.phase ≡ false }
        requires next_copy { IfSome next_copy.old (λ t. t ≡ body) }
        requires few { self.old.accepted < 2 ^ 63 }
        ensures was { IfOk result (λ was. was ≡ self.old.body) }
        ensures ok { OnOk result (self.new ≡ view_after_steps body self.old) }
        ensures left { IfSome next_copy.new (λ t. t ≡ body) }
        ensures back { IfErr result (λ b. b ≡ body) }
        ensures err { OnErr result (self.new ≡ self.old) }
    {
        let Ok(()) = self.results.reserve() else {
            return Err(body);
        };
        if let Phase::Done(outcome) = &body.phase {
            self.results.push(*outcome);
        }
        if next_copy.is_some() || self.next_copy.is_some() {
            drop(std::mem::replace(&mut self.next_copy, next_copy.take()));
        }
        Ok(std::mem::replace(&mut self.body, body))
    }

    /// The actor, which is in a turn, has the body again that it had before in the same turn. The one that it had is given out.
    pub(crate) fn put_back(&mut self, body: Body) -> Body
        requires { idle self.old.body.phase ≡ false }
        ensures had { result ≡ self.old.body }
        ensures back { self.new ≡ record self.old { body = body } }
    {
        drop_next_copy(&mut self.next_copy);
        std::mem::replace(&mut self.body, body)
    }

    /// Its act was done, and its turn goes on with the answer.
    pub(crate) fn give(&mut self, version: &Version, number: ActorId, value: Value)
        requires fits { FitsSome version.now number self.old.body }
        requires act { IsAct (step version.now number self.old.body) }
        ensures { (act : ActOf) → step version.now number self.old.body ≡ outer act → self.new ≡ view_after_steps (reply_body act (Ok value) self.old.body) self.old }
    {
        drop_next_copy(&mut self.next_copy);
        reply(&mut self.body, number, version, Ok(value));
    }

    /// Its act ends its turn with a fault. An error says that nothing changed.
    pub(crate) fn fail(
        &mut self,
        version: &Version,
        number: ActorId,
        fault: Fault,
    ) -> Result<(), AllocError>
        requires fits { FitsSome version.now number self.old.body }
        requires act { IsAct (step version.now number self.old.body) }
        requires few { self.old.accepted < 2 ^ 63 }
        ensures ok { OnOk result ((act : ActOf) → step version.now number self.old.body ≡ outer act → self.new ≡ view_after_steps (reply_body act (Err fault) self.old.body) self.old) }
        ensures err { OnErr result (self.new ≡ self.old) }
    {
        self.results.reserve()?;
        drop_next_copy(&mut self.next_copy);
        reply(&mut self.body, number, version, Err(fault));
        if let Phase::Done(outcome) = &self.body.phase {
            self.results.push(*outcome);
        }
        Ok(())
    }
}
