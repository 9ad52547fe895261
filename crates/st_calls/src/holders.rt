//! Who holds an image: it can be read, and calls can be made of it.
ghost use Rattle.std.specs.Prelude.{◌≡◌, Result};
ghost use Rattle.st_classes.specs.declared.refusals.Refusal.{Refusal as RefusalOf};
ghost use Rattle.st_image.specs.GoingOn.{GoesOnIn};
ghost use Rattle.st_image.specs.Images.{ImageView};
ghost use Rattle.st_calls.specs.declared.calls.Answer.{Answer as AnswerOf};
ghost use Rattle.st_calls.specs.declared.calls.Answer.TheVariants as answers;
ghost use Rattle.st_calls.specs.declared.calls.Call.{Call as CallOf};
ghost use Rattle.st_calls.specs.declared.calls.Call.TheVariants as call_kinds;
ghost use Rattle.st_calls.specs.Does.{Does, told};

use crate::applying;
use crate::calls::{Answer, Call};
use st_classes::refusals::Refusal;
use st_classes::values::Selector;
use st_image::image::Image;
use st_mailbox::mailboxes::Mailbox;
use std::alloc::Global;

/// An image, and what its holder keeps of what he has done.
pub trait Holder<M: Mailbox> {
    /// What the holder keeps.
    type Mine;

    /// The image.
    ghost image_of: { Self → ImageView };

    /// What a call does to the holder, and to what he keeps. The image goes on.
    ghost calls: { Self → Self.Mine → CallOf → Result AnswerOf RefusalOf → Self → Self.Mine → Type 0 };

    fn image(&self) -> &Image<M>
        ensures { result.now ≡ image_of self.now };

    /// Makes the call that interns a text, which is not copied for it.
    fn intern(
        &mut self,
        alloc: Global,
        mine: &mut Self::Mine,
        text: &[u8],
    ) -> Result<Selector, Refusal>
        ensures calls { calls self.old mine.old (call_kinds.Intern text.now) (told answers.Interned result) self.new mine.new }
        ensures later { GoesOnIn (image_of self.old) (image_of self.new) };

    /// Makes a call.
    fn apply(&mut self, alloc: Global, mine: &mut Self::Mine, call: Call) -> Result<Answer, Refusal>
        ensures calls { calls self.old mine.old call result self.new mine.new }
        ensures later { GoesOnIn (image_of self.old) (image_of self.new) };
}

impl<M: Mailbox> Holder<M> for Image<M> {
    type Mine = ();

    ghost image_of = { λ i. i };

    ghost calls = { λ i m c r j n. Does i c r j };

    fn image(&self) -> &Image<M> {
        self
    }

    fn intern(&mut self, alloc: Global, _mine: &mut (), text: &[u8]) -> Result<Selector, Refusal> {
        applying::intern(alloc, self, text)
    }

    fn apply(&mut self, alloc: Global, _mine: &mut (), call: Call) -> Result<Answer, Refusal> {
        applying::apply(alloc, self, call)
    }
}
