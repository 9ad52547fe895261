//! Actors, messages of clients, and closes by clients.
use crate::model::Model;
use crate::workers::Answered;
use st_calls::calls::Answer as Called;
use st_classes::refusals::Refusal;
use st_classes::values::{ActorId, ClassId};
use st_mailbox::messages::Message;
use st_system::events::Answer;
use std::alloc::Global;

impl Model {
    pub(super) fn create(&mut self, alloc: Global, class: ClassId) -> Answered {
        if !self.is_class(class) {
            return Err(Refusal::UnknownClass);
        }
        if 1 <= class.0 && class.0 <= 7 {
            return Err(Refusal::KernelClass);
        }
        Ok(Answer::Called(Called::Created(self.add_actor(alloc, class)?)))
    }

    /// A message of a client, with the client's number for it.
    pub(super) fn post(&mut self, client: u16, to: ActorId, message: Message) -> Answered {
        let client = usize::from(client);
        let last = self.clients.get(client).copied().unwrap_or(0);
        if let Some(refusal) = self.refused_message(to, last, &message) {
            return Err(refusal);
        }
        if let Some(last) = self.clients.get_mut(client) {
            *last = message.seq;
        }
        let place = self.deliver(to, message)?;
        self.counted.posts = self.counted.posts.saturating_add(1);
        Ok(Answer::Called(Called::Position(place)))
    }

    pub(super) fn close(&mut self, actor: ActorId) -> Answered {
        if self.actor(actor).is_none() {
            return Err(Refusal::UnknownActor);
        }
        if !self.shut(actor) {
            return Err(Refusal::Closed);
        }
        Ok(Answer::Called(Called::Closed))
    }
}
