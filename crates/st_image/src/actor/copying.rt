//! Actors as plain data: made of their parts, and copied as such.
ghost use Rattle.std.specs.Prelude.{◌≡◌, ◌≤◌, [], length, true, IfOk, OnOk};
ghost use Rattle.st_image.specs.ActorViews.{actor_view, last_kept, view_anew, view_part};
ghost use Rattle.st_image.specs.NewestResults.{kept_in};
ghost use Rattle.st_image.specs.Parts.{actor_of};

use crate::actor::Actor;
use crate::actor_part::ActorPart;
use crate::results::Results;
use st_classes::seq::Seq;
use st_mailbox::mailboxes::Mailbox;
use st_mailbox::messages::Message;
use std::alloc::{AllocError, Global};

/// Puts copies of messages into an empty mailbox that is open and has room for them.
fn fill<M: Mailbox>(alloc: Global, mailbox: &mut M, messages: &[Message]) -> Result<(), AllocError>
    requires opened { (M.shown mailbox.old).is_open ≡ true }
    requires empty { (M.shown mailbox.old).items ≡ [] }
    requires few { length messages.now ≤ (M.shown mailbox.old).capacity }
    ensures { OnOk result (M.shown mailbox.new ≡ record (M.shown mailbox.old) { items = messages.now }) }
{
    'messages: for place in 0..messages.len() {
        let copy = messages[place].copy(alloc)?;
        let Ok(()) = mailbox.accept(copy) else {
            unreachable!()
        };
    }
    Ok(())
}

/// Copies of the messages of a mailbox.
fn copied<M: Mailbox>(alloc: Global, mailbox: &M) -> Result<Seq<Message>, AllocError>
    ensures { IfOk result (λ messages. messages ≡ (M.shown mailbox.now).items) }
{
    let count = mailbox.len();
    let mut messages = Vec::with_capacity(alloc, count as usize)?;
    'messages: for place in 0..count {
        let Some(message) = mailbox.item(place) else {
            unreachable!()
        };
        messages.push(message.copy(alloc)?)?;
    }
    Ok(Seq::from_vec(messages))
}

impl<M: Mailbox> Actor<M> {
    /// A copy of the actor as plain data.
    pub(crate) fn part(&self, alloc: Global) -> Result<ActorPart, AllocError>
        ensures { IfOk result (λ part. part ≡ view_part self.now) }
    {
        Ok(ActorPart {
            class: self.class,
            capacity: self.mailbox.capacity(),
            is_open: self.mailbox.is_open(),
            body: self.body.copy(alloc)?,
            last: self.last,
            pending: copied(alloc, &self.mailbox)?,
        })
    }

    /// The results with which the actor begins anew.
    pub(crate) fn last_results(&self, alloc: Global) -> Result<Results, AllocError>
        ensures { IfOk result (λ r. kept_in r ≡ last_kept self.now) }
    {
        Results::of_phase(alloc, &self.body.phase)
    }

    /// The actor begins anew, with these results.
    pub(crate) fn begin_anew(&mut self, results: Results)
        requires { kept_in results ≡ last_kept self.old }
        ensures { self.new ≡ view_anew self.old }
    {
        self.accepted = u64::from(self.mailbox.len());
        self.results = results;
    }

    /// The actor of a part.
    pub(crate) fn from_part(alloc: Global, part: ActorPart) -> Result<Actor<M>, AllocError>
        requires some { 1 ≤ part.capacity }
        requires few { part.capacity ≤ 1024 }
        requires within { length part.pending ≤ part.capacity }
        ensures { IfOk result (λ a. a ≡ actor_view (actor_of part)) }
    {
        let mut mailbox = M::with_capacity(alloc, part.capacity)?;
        fill(alloc, &mut mailbox, part.pending.as_slice())?;
        if !part.is_open {
            mailbox.close();
        }
        let results = Results::of_phase(alloc, &part.body.phase)?;
        Ok(Actor {
            class: part.class,
            mailbox,
            accepted: part.pending.len() as u64,
            body: part.body,
            next_copy: None,
            last: part.last,
            results,
        })
    }
}
