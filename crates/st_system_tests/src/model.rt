//! A model of a system, of plain lists: each event does what its definition says. Of the program it uses the plain step of an actor's
//! own, and no call that changes an image, a mailbox or a worker. The class table of a step is that of the image. What actors do on
//! one another is in model/acts.rt; the other events are in model/edits.rt, model/calls.rt, model/checkpoints.rt and model/turns.rt, and what a claim
//! used in model/surviving.rt.

mod acts;
mod calls;
mod checkpoints;
mod edits;
mod surviving;
mod turns;

use crate::workers::Answered;
use st_calls::calls::Call;
use st_classes::refusals::Refusal;
use st_classes::seq::Seq;
use st_classes::values::{ActorId, ClassId, Selector};
use st_image::counts::Counts;
use st_image::image::Image;
use st_mailbox::mailboxes::Mailbox;
use st_mailbox::messages::{Message, Sender};
use st_system::events::Event;
use st_turn::body::{Body, Outcome};
use st_turn::claim::Claim;
use std::alloc::{AllocError, Global};

/// An actor.
#[derive(Drop)]
pub(crate) struct ModelActor {
    pub class: ClassId,
    pub is_open: bool,
    pub body: Body,
    /// The number of the last message that it sent.
    pub last: u64,
    /// All that its mailbox accepted since the last checkpoint, and what was pending then.
    pub accepted: Vec<Message>,
    /// How many of these it has begun.
    pub begun: usize,
    /// Whether it had begun a turn before the last checkpoint, which is turn 0.
    pub has_turn_0: bool,
    /// How its turns ended, from turn 0 on where there is one.
    pub results: Vec<Outcome>,
}

/// What a worker has: the body that was handed out, at the class table of that time, and how many steps it took since.
#[derive(Drop)]
pub(crate) struct ModelClaim {
    /// It has no steps. It is on the heap: where a claim stands on the stack, the proof of each function that lets it go pays for all
    /// its parts.
    pub start: Box<Claim>,
    pub steps: u32,
}

/// An item of a history.
#[derive(Clone, Copy, Drop)]
pub(crate) enum Done {
    /// The event at a place of the list happened.
    Event(usize),
    Begun(ActorId),
    Ran(ActorId, u32),
}

#[derive(Drop)]
pub(crate) struct Model {
    /// The capacity of each mailbox.
    pub capacity: usize,
    /// The methods that there are.
    pub methods: Vec<(ClassId, Selector)>,
    /// The superclasses of the classes that were defined, in their order.
    pub parents: Vec<ClassId>,
    /// The number of edits.
    pub edits: u32,
    /// How many of these were made before the last checkpoint.
    pub edits_before: u32,
    pub actors: Vec<ModelActor>,
    /// How many messages of clients were accepted, and how many steps were committed.
    pub counted: Counts,
    /// The number of the last message of each client.
    pub clients: Vec<u64>,
    /// What happened since the last checkpoint.
    pub history: Vec<Done>,
    /// The claim of each worker, if it has one.
    pub claims: Vec<Option<ModelClaim>>,
}

impl Model {
    /// Three workers, two clients, and nothing else.
    pub(crate) fn new(alloc: Global, capacity: usize) -> Result<Model, AllocError> {
        let mut claims = Vec::new(alloc);
        for _ in 0..3 {
            claims.push(None)?;
        }
        Ok(Model {
            capacity,
            methods: Vec::new(alloc),
            parents: Vec::new(alloc),
            edits: 0,
            edits_before: 0,
            actors: Vec::new(alloc),
            counted: Counts { posts: 0, steps: 0 },
            clients: vec![in alloc; 0; 2]?,
            history: Vec::new(alloc),
            claims,
        })
    }

    /// Lets the event at a place of a list happen. The image is the one after it: a claim's body has to be known to fit its table.
    pub(crate) fn apply<M: Mailbox>(
        &mut self,
        alloc: Global,
        place: usize,
        event: &Event,
        image: &Image<M>,
    ) -> Answered {
        match event {
            Event::Checkout { worker, actor } => self.check_out(alloc, *worker, *actor, image),
            Event::Local(worker) => self.step(alloc, *worker),
            Event::Commit(worker) => self.commit(alloc, *worker, image.version()),
            Event::Release(worker) => self.release(*worker),
            Event::Forget(worker) => self.forget(*worker),
            Event::Call(Call::Checkpoint) => self.checkpoint(alloc),
            Event::Call(call) => self.call(alloc, place, call),
        }
    }

    /// Lets a call of the image happen. One that is not refused enters the history.
    fn call(&mut self, alloc: Global, place: usize, call: &Call) -> Answered {
        let answer = self.image_call(alloc, call)?;
        self.note(Done::Event(place))?;
        Ok(answer)
    }

    fn image_call(&mut self, alloc: Global, call: &Call) -> Answered {
        match call {
            Call::Define { parent, .. } => self.define(*parent),
            Call::Install { class, source } => self.install(*class, source.as_slice()),
            Call::Remove { class, selector } => self.remove(*class, *selector),
            Call::Reparent { class, parent } => self.reparent(*class, *parent),
            Call::Create(class) => self.create(alloc, *class),
            Call::Post {
                sender,
                seq,
                actor,
                selector,
                args,
            } => {
                let message = Message {
                    sender: Sender::Client(*sender),
                    seq: *seq,
                    selector: *selector,
                    args: Seq::from_vec(args.as_slice().to_vec(alloc)?),
                };
                self.post(*sender, *actor, message)
            }
            Call::Close(actor) => self.close(*actor),
            _ => Err(Refusal::BadArguments),
        }
    }

    /// An item goes last in the history.
    fn note(&mut self, done: Done) -> Result<(), AllocError> {
        self.history.push(done)?;
        Ok(())
    }

    pub(crate) fn actor(&self, actor: ActorId) -> Option<&ModelActor> {
        self.actors.get(actor.0 as usize)
    }

    fn actor_mut(&mut self, actor: ActorId) -> Option<&mut ModelActor> {
        self.actors.get_mut(actor.0 as usize)
    }
}

impl ModelActor {
    /// What it accepted and has not begun.
    pub(crate) fn pending(&self) -> &[Message] {
        self.accepted.get(self.begun..).unwrap_or(&[])
    }
}
