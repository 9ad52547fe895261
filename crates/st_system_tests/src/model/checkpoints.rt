//! Checkpoints: what happened is forgotten, and what stands stays.
use crate::model::{Model, ModelActor};
use crate::workers::Answered;
use st_calls::calls::Answer as Called;
use st_mailbox::messages::Message;
use st_system::events::Answer;
use st_turn::body::Phase;
use std::alloc::{AllocError, Global};

/// Copies of messages.
fn copies(alloc: Global, messages: &[Message]) -> Result<Vec<Message>, AllocError> {
    let mut copies = Vec::new(alloc);
    for message in messages {
        copies.push(message.copy(alloc)?)?;
    }
    Ok(copies)
}

impl ModelActor {
    /// Turns are numbered anew: the last one that it began is turn 0, and what is pending is turn 1 and on.
    fn begin_anew(&mut self, alloc: Global) -> Result<(), AllocError> {
        self.accepted = copies(alloc, self.pending())?;
        self.begun = 0;
        self.has_turn_0 = !matches!(self.body.phase, Phase::Fresh);
        self.results = Vec::new(alloc);
        if let Phase::Done(outcome) = &self.body.phase {
            self.results.push(*outcome)?;
        }
        Ok(())
    }
}

impl Model {
    pub(super) fn checkpoint(&mut self, alloc: Global) -> Answered {
        for actor in &mut self.actors {
            actor.begin_anew(alloc)?;
        }
        self.history = Vec::new(alloc);
        self.edits_before = self.edits;
        Ok(Answer::Called(Called::Counted(self.counted)))
    }
}
