//! Events that are calls of the image.
ghost use Rattle.std.specs.Prelude.{◌≡◌};
ghost use Rattle.st_calls.specs.declared.calls.Answer.TheVariants as call_answers;
ghost use Rattle.st_system.specs.declared.events.Answer.TheVariants.{Called};
ghost use Rattle.st_calls.specs.Does.{told};

use crate::copies::copy_call;
use crate::events::Answer;
use crate::system::System;
use st_calls::applying::{apply, intern};
use st_calls::calls::{Answer as CallAnswer, Call};
use st_classes::refusals::Refusal;
use st_classes::values::Selector;
use st_guard::guard::Guard;
use st_mailbox::mailboxes::Mailbox;
use std::alloc::Global;

/// The number of a text, as the answer of an event.
fn called(answer: Result<Selector, Refusal>) -> Result<Answer, Refusal>
    ensures { result ≡ told Called (told call_answers.Interned answer) }
{
    match answer {
        Ok(selector) => Ok(Answer::Called(CallAnswer::Interned(selector))),
        Err(refusal) => Err(refusal),
    }
}

impl<M: Mailbox, G: Guard> System<M, G> {
    ghost use Rattle.st_system.specs.declared.events.Event.TheVariants.{Call as CallOf};
    ghost use Rattle.st_calls.specs.declared.calls.Call.TheVariants as calls;
    ghost use Rattle.std.specs.Prelude.{◌≡◌};
    ghost use Rattle.st_system.specs.Acts.{Acts};
    ghost use Rattle.st_system.specs.ImageEvents.{copies, has_texts};
    ghost use Rattle.st_system.specs.Others.{LeavesOthers};
    ghost use Rattle.st_system.specs.Schedules.{schedule};

    /// A text is interned. It is not copied for that.
    fn intern(&mut self, alloc: Global, text: &[u8]) -> Result<Answer, Refusal>
        ensures acts { Acts (schedule self.old) (CallOf (calls.Intern text.now)) result (schedule self.new) }
        ensures others { LeavesOthers (CallOf (calls.Intern text.now)) self.old.workers self.new.workers }
    {
        let answer = intern(alloc, &mut self.image, text);
        called(answer)
    }

    /// A copy of a call is made of the image.
    fn copied(&mut self, alloc: Global, call: &Call) -> Result<Answer, Refusal>
        requires { has_texts call.now ≡ copies call.now }
        ensures acts { Acts (schedule self.old) (CallOf call.now) result (schedule self.new) }
        ensures others { LeavesOthers (CallOf call.now) self.old.workers self.new.workers }
    {
        let call = copy_call(alloc, call)?;
        match apply(alloc, &mut self.image, call) {
            Ok(answer) => Ok(Answer::Called(answer)),
            Err(refusal) => Err(refusal),
        }
    }

    pub(super) fn call(&mut self, alloc: Global, call: &Call) -> Result<Answer, Refusal>
        ensures acts { Acts (schedule self.old) (CallOf call.now) result (schedule self.new) }
        ensures others { LeavesOthers (CallOf call.now) self.old.workers self.new.workers }
    {
        match call {
            Call::Intern(text) => self.intern(alloc, text.as_slice()),
            call => self.copied(alloc, call),
        }
    }
}
