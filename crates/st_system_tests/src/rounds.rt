//! A list of 200 events by which mailboxes for three messages are filled, emptied and closed: by messages that are refused too, and
//! ten times three that go through one mailbox.
use crate::lists::first_events;
use st_calls::calls::Call;
use st_classes::seq::Seq;
use st_classes::values::{ActorId, Selector, Value};
use st_system::events::Event;
use std::alloc::{AllocError, Global};

/// An actor that gets most messages.
pub(crate) const BUSY: ActorId = ActorId(0);

/// An actor that posts to the actor which it is told of.
pub(crate) const ASKED: ActorId = ActorId(1);

/// An actor that gets no message.
pub(crate) const IDLE: ActorId = ActorId(2);

/// `isNil`, of the kernel, which answers with the first step of a turn.
const IS_NIL: Selector = Selector(3);

/// `go`, which takes eight steps.
pub(crate) const GO: Selector = Selector(22);

/// `ask:`, whose fourth step posts `go` to the argument; the fifth answers whether it was accepted.
pub(crate) const ASK: Selector = Selector(26);

/// `missing`, which nobody understands.
const MISSING: Selector = Selector(28);

/// A list of events, with the number of the last message of the only client.
#[derive(Drop)]
pub(crate) struct Rounds {
    pub events: Vec<Event>,
    last: u64,
}

impl Rounds {
    /// Two classes, their methods, and three actors.
    pub(crate) fn begin(alloc: Global) -> Result<Rounds, AllocError> {
        Ok(Rounds {
            events: first_events(alloc)?,
            last: 0,
        })
    }

    pub(crate) fn add(&mut self, event: Event) -> Result<(), AllocError> {
        self.events.push(event)?;
        Ok(())
    }

    /// A message is posted, whether it is accepted or not.
    pub(crate) fn post(
        &mut self,
        alloc: Global,
        to: ActorId,
        selector: Selector,
        args: &[Value],
    ) -> Result<(), AllocError> {
        self.last = self.last.saturating_add(1);
        self.events.push(Event::Call(Call::Post {
            sender: 1,
            seq: self.last,
            actor: to,
            selector,
            args: Seq::from_vec(args.to_vec(alloc)?),
        }))?;
        Ok(())
    }

    /// A worker takes this many steps of an actor and commits them.
    pub(crate) fn quantum(
        &mut self,
        worker: u32,
        actor: ActorId,
        steps: u32,
    ) -> Result<(), AllocError> {
        self.events.push(Event::Checkout { worker, actor })?;
        for _step in 0..steps {
            self.events.push(Event::Local(worker))?;
        }
        self.events.push(Event::Commit(worker))?;
        Ok(())
    }

    /// Four messages, of which the last finds the mailbox full, and the turns of the others.
    fn round(&mut self, alloc: Global, worker: u32) -> Result<(), AllocError> {
        for selector in [MISSING, IS_NIL, MISSING, GO] {
            self.post(alloc, BUSY, selector, &[])?;
        }
        for _message in 0..3 {
            self.quantum(worker, BUSY, 1)?;
        }
        Ok(())
    }

    /// An actor is asked to post to another one, and does so.
    fn ask(&mut self, alloc: Global, to: ActorId) -> Result<(), AllocError> {
        self.post(alloc, ASKED, ASK, &[Value::Actor(to)])?;
        self.quantum(0, ASKED, 3)?;
        self.quantum(1, ASKED, 1)
    }

    /// A mailbox gets one message of an actor and two of the client, and refuses a second one of that actor.
    fn fill(&mut self, alloc: Global) -> Result<(), AllocError> {
        self.ask(alloc, BUSY)?;
        self.post(alloc, BUSY, IS_NIL, &[])?;
        self.post(alloc, BUSY, MISSING, &[])?;
        self.ask(alloc, BUSY)
    }

    /// A full mailbox is closed, twice, refuses messages, and is emptied.
    fn close_full(&mut self, alloc: Global) -> Result<(), AllocError> {
        self.events.push(Event::Call(Call::Close(BUSY)))?;
        self.events.push(Event::Call(Call::Close(BUSY)))?;
        self.post(alloc, BUSY, GO, &[])?;
        self.ask(alloc, BUSY)?;
        self.quantum(2, BUSY, 8)?;
        self.quantum(2, BUSY, 1)?;
        self.quantum(2, BUSY, 1)
    }

    /// What was closed and is empty now refuses a message, and has none to begin. A mailbox that is closed before a message came
    /// refuses one too.
    fn stay_closed(&mut self, alloc: Global) -> Result<(), AllocError> {
        self.post(alloc, BUSY, GO, &[])?;
        self.events.push(Event::Checkout {
            worker: 0,
            actor: BUSY,
        })?;
        self.events.push(Event::Call(Call::Close(IDLE)))?;
        self.post(alloc, IDLE, GO, &[])
    }

    /// Two claims of one turn, of which the second is refused.
    fn claim_twice(&mut self, alloc: Global) -> Result<(), AllocError> {
        self.post(alloc, ASKED, MISSING, &[])?;
        for worker in [0, 1] {
            self.events.push(Event::Checkout {
                worker,
                actor: ASKED,
            })?;
            self.events.push(Event::Local(worker))?;
        }
        self.events.push(Event::Commit(0))?;
        self.events.push(Event::Commit(1))?;
        Ok(())
    }
}

/// The list.
pub(crate) fn events_of_rounds(alloc: Global) -> Result<Vec<Event>, AllocError> {
    let mut rounds = Rounds::begin(alloc)?;
    for round in 0..10 {
        rounds.round(alloc, round % 3)?;
    }
    rounds.fill(alloc)?;
    rounds.close_full(alloc)?;
    rounds.stay_closed(alloc)?;
    rounds.claim_twice(alloc)?;
    Ok(rounds.events)
}
