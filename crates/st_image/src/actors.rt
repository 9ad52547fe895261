//! The actors of an image, how many claims of each are out, and which of them may be checked out next.
ghost use Rattle.std.specs.Prelude.{◌≡◌, ◌&&◌, ◌==◌, ◌<◌, ◌++◌, [], ◌∷◌, length, vec_len, vec_capacity, false, OnOk, OnErr};
ghost use Rattle.st_image.specs.ClaimsOut.{one_less as one_less_of, one_more as one_more_of};

mod loading;
mod renewal;

use crate::actor::Actor;
use crate::dropping::let_go;
use crate::recycled::Recycled;
use st_bitset::bitset::BitSet;
use st_classes::faults::Fault;
use st_classes::values::{ActorId, Value};
use st_classes::version::Version;
use st_mailbox::mailboxes::Mailbox;
use st_mailbox::messages::Message;
use st_turn::acts::{Act, next_act};
use st_turn::body::Body;
use std::alloc::{AllocError, Global};
use std::marker::Model;

/// The actors by their numbers. Contracts see what is kept of each, and how many claims of each are out.
#[derive(Drop)]
pub(crate) struct Actors<M: Mailbox> {
    items: Vec<Actor<M>>,
    out: Vec<u32>,
    /// Those that are ready and have no claim out.
    free: BitSet,
}

impl<M: Mailbox> Model for Actors<M> {
    ghost use Rattle.st_image.specs.ActorViews.{ActorsView, AreActors};

    ghost Value = { ActorsView };

    ghost view = { λ a. record { list = a.items.items; out = a.out.items } };

    ghost invariant = { λ a. AreActors (record { list = a.items.items; out = a.out.items }) a.free };
}

/// Whether an actor may be checked out next, where this many claims of it are out.
#[inline]
fn is_free(is_ready: bool, out: u32) -> bool
    ensures { result ≡ (is_ready && (out == 0)) }
{
    is_ready && out == 0
}

/// One claim more that is out, up to 2^32 - 1.
#[inline]
fn one_more(out: u32) -> u32
    ensures { result ≡ one_more_of out }
{
    if out < u32::MAX { out + 1 } else { out }
}

/// One claim less that is out, but not below 0.
#[inline]
fn one_less(out: u32) -> u32
    ensures { result ≡ one_less_of out }
{
    out.saturating_sub(1)
}

/// Makes room for one more actor and its count, and a flag for it that is not raised. After an error there is no such flag.
fn make_room<M: Mailbox>(
    items: &mut Vec<Actor<M>>,
    out: &mut Vec<u32>,
    free: &mut BitSet,
) -> Result<(), AllocError>
    requires { length free.old < 65536 }
    ensures items { items.new.items ≡ items.old.items }
    ensures counts { out.new.items ≡ out.old.items }
    ensures flag { OnOk result (free.new ≡ free.old ++ false ∷ []) }
    ensures err { OnErr result (free.new ≡ free.old) }
    ensures room { OnOk result (vec_len items.new < vec_capacity items.new) }
    ensures room_out { OnOk result (vec_len out.new < vec_capacity out.new) }
{
    items.reserve(1)?;
    out.reserve(1)?;
    free.push()
}

impl<M: Mailbox> Actors<M> {
    ghost use Rattle.std.specs.Prelude.{◌≡◌, ◌+◌, ◌<◌, ◌≤◌, ◌^◌, ◌++◌, [], ◌∷◌, ℕ, length, slice_get, Some, true, false, IfOk, IfErr, IfSome, IfNone, OnOk, OnErr, Ok, Err};
    ghost use Rattle.std.specs.Option.{option_copied};
    ghost use Rattle.st_turn.specs.declared.acts.Act.{Act as ActOf};
    ghost use Rattle.st_turn.specs.Idle.{is_idle as idle};
    ghost use Rattle.st_turn.specs.BodyFits.{FitsSome};
    ghost use Rattle.st_turn.specs.StepResults.{IsAct, act_in};
    ghost use Rattle.st_turn.specs.Steps.{outer, reply_body, step};
    ghost use Rattle.st_image.specs.Worlds.{change_at};
    ghost use Rattle.st_image.specs.ActorViews.{Accepts, ActorView, IsNextFree, is_free_in, is_ready_view, view_after_steps, view_checked_out, view_with_message};
    ghost use Rattle.st_image.specs.ClaimsOut.{one_less, one_more};

    pub(crate) fn new(alloc: Global) -> Actors<M>
        ensures { result ≡ record { list = []; out = [] } }
    {
        Actors {
            items: Vec::new(alloc),
            out: Vec::new(alloc),
            free: BitSet::new(alloc),
        }
    }

    pub(crate) fn len(&self) -> usize
        ensures value { result ≡ length self.now.list }
        ensures few { length self.now.list ≤ 65536 }
    {
        let _free = &self.free;
        self.items.len()
    }

    pub(crate) fn get(&self, actor: ActorId) -> Option<&Actor<M>>
        ensures { option_copied result ≡ slice_get self.now.list actor.0 }
    {
        self.items.get(actor.0 as usize)
    }

    /// The first one that may be checked out, in cyclic order of numbers from a number.
    pub(crate) fn next(&self, from: u32) -> Option<u32>
        ensures some { IfSome result (λ a. IsNextFree self.now from a) }
        ensures none { IfNone result ((a : ℕ) → is_free_in self.now a ≡ false) }
    {
        let _items = &self.items;
        self.free.next(from)
    }

    /// Puts a new actor last, which is not ready. No claim of it is out.
    pub(crate) fn push(&mut self, actor: Actor<M>) -> Result<(), AllocError>
        requires few { length self.old.list < 65536 }
        requires idle { is_ready_view actor ≡ false }
        ensures ok { OnOk result (self.new ≡ record { list = self.old.list ++ actor ∷ []; out = self.old.out ++ 0 ∷ [] }) }
        ensures err { OnErr result (self.new ≡ self.old) }
    {
        let Ok(()) = make_room(&mut self.items, &mut self.out, &mut self.free) else {
            return Err(let_go(actor, AllocError));
        };
        self.items.push_reserved(actor);
        self.out.push_reserved(0);
        Ok(())
    }

    /// Puts a message last in the mailbox of an actor, which is then ready. The answer is how many messages it has accepted.
    pub(crate) fn deliver(&mut self, actor: ActorId, message: Message) -> u64
        requires there { actor.0 < length self.old.list }
        requires few { (k : ActorView) → slice_get self.old.list actor.0 ≡ Some k → k.accepted < 2 ^ 63 }
        requires accepts { Accepts self.old.list actor }
        ensures count { (k : ActorView) → slice_get self.old.list actor.0 ≡ Some k → result ≡ k.accepted + 1 }
        ensures message { self.new ≡ record self.old { list = change_at (view_with_message message) actor.0 self.old.list } }
    {
        let item = &mut self.items[actor.0 as usize];
        let count = item.take_in(message);
        let free = is_free(true, self.out[actor.0 as usize]);
        self.free.set(actor.0, free);
        count
    }

    /// The last message that an actor sent has this number.
    pub(crate) fn set_last(&mut self, actor: ActorId, number: u64)
        requires { actor.0 < length self.old.list }
        ensures { self.new ≡ record self.old { list = change_at (λ (k : ActorView). record k { last = number }) actor.0 self.old.list } }
    {
        let item = &mut self.items[actor.0 as usize];
        item.set_last(number);
    }

    /// The mailbox of an actor accepts no more.
    pub(crate) fn close(&mut self, actor: ActorId)
        requires { actor.0 < length self.old.list }
        ensures { self.new ≡ record self.old { list = change_at (λ (k : ActorView). record k { is_open = false }) actor.0 self.old.list } }
    {
        let item = &mut self.items[actor.0 as usize];
        item.close();
    }

    /// The body that a checkout of an actor hands out.
    #[inline(always)]
    pub(crate) fn body_to_check_out(
        &mut self,
        alloc: Global,
        actor: ActorId,
        recycled: &mut Recycled,
    ) -> Result<Body, AllocError>
        requires { actor.0 < length self.old.list }
        ensures same { self.new ≡ self.old }
        ensures body { IfOk result (λ b. (k : ActorView) → slice_get self.old.list actor.0 ≡ Some k → b ≡ (view_checked_out k).body) }
    {
        let item = &mut self.items[actor.0 as usize];
        item.body_to_check_out(alloc, recycled)
    }

    /// A claim more of an actor is out. An actor that is idle begins its first pending message, where one is pending. The answer is
    /// the number after the actor's.
    pub(crate) fn check_out(&mut self, actor: ActorId) -> u32
        requires { actor.0 < length self.old.list }
        ensures checked { self.new ≡ record { list = change_at view_checked_out actor.0 self.old.list; out = change_at one_more actor.0 self.old.out } }
        ensures counted { actor.0 < length self.old.out }
        ensures next { result ≡ actor.0 + 1 }
    {
        let item = &mut self.items[actor.0 as usize];
        item.check_out();
        let out = one_more(self.out[actor.0 as usize]);
        self.out[actor.0 as usize] = out;
        self.free.set(actor.0, false);
        actor.0 + 1
    }

    /// A claim of an actor is no longer out, where the actor is there.
    pub(crate) fn release(&mut self, actor: ActorId)
        ensures { self.new ≡ record self.old { out = change_at one_less actor.0 self.old.out } }
    {
        if actor.0 as usize >= self.items.len() {
            return;
        }
        let out = one_less(self.out[actor.0 as usize]);
        self.out[actor.0 as usize] = out;
        let item = &self.items[actor.0 as usize];
        let free = is_free(item.is_ready(), out);
        self.free.set(actor.0, free);
    }

    /// An actor has this body after steps of its own, and the one before is given out. A turn that ended adds its result. For want
    /// of memory nothing changes, and the body is given back.
    #[inline(always)]
    pub(crate) fn put_body(
        &mut self,
        actor: ActorId,
        body: Body,
        next_copy: &mut Option<Body>,
    ) -> Result<Body, Body>
        requires there { actor.0 < length self.old.list }
        requires next_copy { IfSome next_copy.old (λ t. t ≡ body) }
        requires busy { (k : ActorView) → slice_get self.old.list actor.0 ≡ Some k → idle k.body.phase ≡ false }
        requires few { (k : ActorView) → slice_get self.old.list actor.0 ≡ Some k → k.accepted < 2 ^ 63 }
        ensures was { IfOk result (λ was. (k : ActorView) → slice_get self.old.list actor.0 ≡ Some k → was ≡ k.body) }
        ensures ok { OnOk result (self.new ≡ record self.old { list = change_at (view_after_steps body) actor.0 self.old.list }) }
        ensures left { IfSome next_copy.new (λ t. t ≡ body) }
        ensures back { IfErr result (λ b. b ≡ body) }
        ensures err { OnErr result (self.new ≡ self.old) }
    {
        let item = &mut self.items[actor.0 as usize];
        let was = item.put_body(body, next_copy)?;
        let free = is_free(item.is_ready(), self.out[actor.0 as usize]);
        self.free.set(actor.0, free);
        Ok(was)
    }

    /// An actor that is in a turn has the body again that it had before in the same turn. The one that it had is given out.
    pub(crate) fn put_back(&mut self, actor: ActorId, body: Body) -> Body
        requires there { actor.0 < length self.old.list }
        requires busy { (k : ActorView) → slice_get self.old.list actor.0 ≡ Some k → idle k.body.phase ≡ false }
        requires still { idle body.phase ≡ false }
        ensures had { (k : ActorView) → slice_get self.old.list actor.0 ≡ Some k → result ≡ k.body }
        ensures back { self.new ≡ record self.old { list = change_at (λ (k : ActorView). record k { body = body }) actor.0 self.old.list } }
    {
        let item = &mut self.items[actor.0 as usize];
        item.put_back(body)
    }

    /// What the next step of an actor asks of the image, if it does.
    pub(crate) fn next_act(
        &self,
        alloc: Global,
        version: &Version,
        actor: ActorId,
    ) -> Result<Option<Act>, AllocError>
        requires there { actor.0 < length self.now.list }
        requires fits { (k : ActorView) → slice_get self.now.list actor.0 ≡ Some k → FitsSome version.now actor k.body }
        ensures { IfOk result (λ act. (k : ActorView) → slice_get self.now.list actor.0 ≡ Some k → act ≡ act_in (step version.now actor k.body)) }
    {
        let item = &self.items[actor.0 as usize];
        next_act(alloc, item.body(), actor, version)
    }

    /// The act of an actor was done, and its turn goes on with the answer.
    pub(crate) fn give(&mut self, version: &Version, actor: ActorId, value: Value)
        requires there { actor.0 < length self.old.list }
        requires fits { (k : ActorView) → slice_get self.old.list actor.0 ≡ Some k → FitsSome version.now actor k.body }
        requires act { (k : ActorView) → slice_get self.old.list actor.0 ≡ Some k → IsAct (step version.now actor k.body) }
        requires busy { (k : ActorView) → slice_get self.old.list actor.0 ≡ Some k → idle k.body.phase ≡ false }
        ensures { (k : ActorView) (act : ActOf) → slice_get self.old.list actor.0 ≡ Some k → step version.now actor k.body ≡ outer act → self.new ≡ record self.old { list = change_at (view_after_steps (reply_body act (Ok value) k.body)) actor.0 self.old.list } }
    {
        let item = &mut self.items[actor.0 as usize];
        item.give(version, actor, value);
        let free = is_free(item.is_ready(), self.out[actor.0 as usize]);
        self.free.set(actor.0, free);
    }

    /// The act of an actor ends its turn with a fault. An error says that nothing changed.
    pub(crate) fn fail(
        &mut self,
        version: &Version,
        actor: ActorId,
        fault: Fault,
    ) -> Result<(), AllocError>
        requires there { actor.0 < length self.old.list }
        requires fits { (k : ActorView) → slice_get self.old.list actor.0 ≡ Some k → FitsSome version.now actor k.body }
        requires act { (k : ActorView) → slice_get self.old.list actor.0 ≡ Some k → IsAct (step version.now actor k.body) }
        requires busy { (k : ActorView) → slice_get self.old.list actor.0 ≡ Some k → idle k.body.phase ≡ false }
        requires few { (k : ActorView) → slice_get self.old.list actor.0 ≡ Some k → k.accepted < 2 ^ 63 }
        ensures ok { OnOk result ((k : ActorView) (act : ActOf) → slice_get self.old.list actor.0 ≡ Some k → step version.now actor k.body ≡ outer act → self.new ≡ record self.old { list = change_at (view_after_steps (reply_body act (Err fault) k.body)) actor.0 self.old.list }) }
        ensures err { OnErr result (self.new ≡ self.old) }
    {
        let item = &mut self.items[actor.0 as usize];
        item.fail(version, actor, fault)?;
        let free = is_free(item.is_ready(), self.out[actor.0 as usize]);
        self.free.set(actor.0, free);
        Ok(())
    }
}
