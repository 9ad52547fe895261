//! Messages, closes and new actors, by clients and by actors.
use crate::lists::names;
use crate::model::{Model, ModelActor};
use st_classes::faults::Fault;
use st_classes::refusals::Refusal;
use st_classes::seq::Seq;
use st_classes::values::{ActorId, ClassId, Selector, Value};
use st_mailbox::messages::{Message, Sender};
use st_turn::acts::Act;
use st_turn::body::Body;
use std::alloc::{AllocError, Global};

/// Whether a selector is one of those of lists, and takes this many arguments.
fn takes(selector: Selector, count: usize) -> bool {
    match names().get(usize::from(selector.0).wrapping_sub(22)) {
        Some(name) => {
            let mut colons = 0usize;
            for byte in name.as_bytes() {
                if *byte == b':' {
                    colons = colons.saturating_add(1);
                }
            }
            colons == count
        }
        None => false,
    }
}

fn has_local(values: &[Value]) -> bool {
    for value in values {
        if let Value::Local(_) = value {
            return true;
        }
    }
    false
}

impl Model {
    /// Whether a value is no local and names something that is there.
    fn is_there(&self, value: Value) -> bool {
        match value {
            Value::Int(_) | Value::Bool(_) | Value::Nil => true,
            Value::Sym(name) => usize::from(name.0) < names().len().saturating_add(22),
            Value::Class(class) => self.is_class(class),
            Value::Actor(actor) => (actor.0 as usize) < self.actors.len(),
            Value::Local(_) => false,
        }
    }

    /// Whether a message has its selector's number of arguments, which are there.
    fn is_fit(&self, message: &Message) -> bool {
        for value in message.args.as_slice() {
            if !self.is_there(*value) {
                return false;
            }
        }
        takes(message.selector, message.args.len())
    }

    /// Why a message to an actor is refused, after its sender's last number.
    pub(super) fn refused_message(
        &self,
        to: ActorId,
        last: u64,
        message: &Message,
    ) -> Option<Refusal> {
        let Some(actor) = self.actor(to) else {
            return Some(Refusal::UnknownActor);
        };
        if !self.is_fit(message) {
            return Some(Refusal::BadArguments);
        }
        if message.seq <= last {
            return Some(Refusal::Old { last });
        }
        if !actor.is_open {
            return Some(Refusal::Closed);
        }
        if actor.pending().len() >= self.capacity {
            return Some(Refusal::Full);
        }
        None
    }

    /// A message goes last in a mailbox, and its place there is told, from 1.
    pub(super) fn deliver(&mut self, to: ActorId, message: Message) -> Result<u64, AllocError> {
        match self.actor_mut(to) {
            Some(actor) => {
                actor.accepted.push(message)?;
                Ok(actor.accepted.len() as u64)
            }
            None => Ok(0),
        }
    }

    /// A mailbox is closed, and whether it was open is told.
    pub(super) fn shut(&mut self, actor: ActorId) -> bool {
        match self.actor_mut(actor) {
            Some(actor) => std::mem::replace(&mut actor.is_open, false),
            None => false,
        }
    }

    /// A new actor of a class that is there.
    pub(super) fn add_actor(
        &mut self,
        alloc: Global,
        class: ClassId,
    ) -> Result<ActorId, AllocError> {
        let number = u32::try_from(self.actors.len()).unwrap_or(u32::MAX);
        let body = Body::fresh(alloc, class, if class.0 == 0 { 0 } else { 1 })?;
        self.actors.push(ModelActor {
            class,
            is_open: true,
            body,
            last: 0,
            accepted: Vec::new(alloc),
            begun: 0,
            has_turn_0: false,
            results: Vec::new(alloc),
        })?;
        Ok(ActorId(number))
    }

    /// An actor posts a message under its next number: whether it is accepted.
    fn post_by(
        &mut self,
        actor: ActorId,
        to: ActorId,
        message: Message,
    ) -> Result<bool, AllocError> {
        let number = message.seq;
        if self
            .refused_message(to, number.saturating_sub(1), &message)
            .is_some()
        {
            return Ok(false);
        }
        self.deliver(to, message)?;
        if let Some(sender) = self.actor_mut(actor) {
            sender.last = number;
        }
        Ok(true)
    }

    /// The message that an actor posts, or the fault of its post.
    fn message_by(
        &self,
        alloc: Global,
        actor: ActorId,
        args: &[Value],
    ) -> Result<Result<Message, Fault>, AllocError> {
        let [Value::Sym(selector), args @ ..] = args else {
            return Ok(Err(Fault::BadArgument));
        };
        if !takes(*selector, args.len()) {
            return Ok(Err(Fault::BadArgument));
        }
        if has_local(args) {
            return Ok(Err(Fault::LocalArgument));
        }
        let last = match self.actor(actor) {
            Some(sender) => sender.last,
            None => 0,
        };
        Ok(Ok(Message {
            sender: Sender::Actor(actor),
            seq: last.saturating_add(1),
            selector: *selector,
            args: Seq::from_vec(args.to_vec(alloc)?),
        }))
    }

    /// What an act of an actor answers, or its fault.
    pub(super) fn perform(
        &mut self,
        alloc: Global,
        actor: ActorId,
        act: &Act,
    ) -> Result<Result<Value, Fault>, AllocError> {
        match act {
            Act::Post { actor: to, args } => {
                match self.message_by(alloc, actor, args.as_slice())? {
                    Ok(message) => Ok(Ok(Value::Bool(self.post_by(actor, *to, message)?))),
                    Err(fault) => Ok(Err(fault)),
                }
            }
            Act::Close(to) => Ok(Ok(Value::Bool(self.shut(*to)))),
            Act::Create(class) if 1 <= class.0 && class.0 <= 7 => Ok(Err(Fault::BadArgument)),
            Act::Create(class) => Ok(Ok(Value::Actor(self.add_actor(alloc, *class)?))),
        }
    }
}
