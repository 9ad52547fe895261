//! Making a call.
ghost use Rattle.std.specs.Prelude.{◌≡◌, OnOk};
ghost use Rattle.st_image.specs.GoingOn.{GoesOnIn};
ghost use Rattle.st_calls.specs.declared.calls.Answer.TheVariants as answers;
ghost use Rattle.st_calls.specs.declared.calls.Call.TheVariants as calls;
ghost use Rattle.st_calls.specs.Does.{Does, InternsIn, told};
ghost use Rattle.st_calls.specs.Growth.{Grows, edits_by, posts_by};

use crate::calls::{Answer, Call};
use st_classes::refusals::Refusal;
use st_classes::values::{ActorId, Selector};
use st_image::history::Item;
use st_image::image::Image;
use st_mailbox::mailboxes::Mailbox;
use std::alloc::Global;

fn interned(answer: Result<Selector, Refusal>) -> Result<Answer, Refusal>
    ensures { result ≡ told answers.Interned answer }
{
    match answer {
        Ok(selector) => Ok(Answer::Interned(selector)),
        Err(refusal) => Err(refusal),
    }
}

fn version(answer: Result<u32, Refusal>) -> Result<Answer, Refusal>
    ensures { result ≡ told answers.Version answer }
{
    match answer {
        Ok(edits) => Ok(Answer::Version(edits)),
        Err(refusal) => Err(refusal),
    }
}

fn created(answer: Result<ActorId, Refusal>) -> Result<Answer, Refusal>
    ensures { result ≡ told answers.Created answer }
{
    match answer {
        Ok(actor) => Ok(Answer::Created(actor)),
        Err(refusal) => Err(refusal),
    }
}

fn position(answer: Result<u64, Refusal>) -> Result<Answer, Refusal>
    ensures { result ≡ told answers.Position answer }
{
    match answer {
        Ok(place) => Ok(Answer::Position(place)),
        Err(refusal) => Err(refusal),
    }
}

fn closed(answer: Result<(), Refusal>) -> Result<Answer, Refusal>
    ensures { result ≡ told (λ _. answers.Closed) answer }
{
    match answer {
        Ok(()) => Ok(Answer::Closed),
        Err(refusal) => Err(refusal),
    }
}

/// Makes a checkpoint, and answers what the image has counted. The history that is emptied takes the place of what is in `past`.
fn emptied_into<M: Mailbox>(
    alloc: Global,
    image: &mut Image<M>,
    past: &mut Vec<Item>,
) -> Result<Answer, Refusal>
    ensures does { Does image.old calls.Checkpoint result image.new }
    ensures past { OnOk result (past.new.items ≡ image.old.history) }
{
    match image.checkpoint_into(alloc, past) {
        Ok(()) => Ok(Answer::Counted(image.counted())),
        Err(_) => Err(Refusal::NoMemory),
    }
}

/// Makes a checkpoint, and drops the history that it empties.
fn checkpoint<M: Mailbox>(alloc: Global, image: &mut Image<M>) -> Result<Answer, Refusal>
    ensures { Does image.old calls.Checkpoint result image.new }
{
    let mut past = Vec::new(alloc);
    emptied_into(alloc, image, &mut past)
}

/// Makes a checkpoint as [`apply`] does. The history that is emptied takes the place of what is in `past`.
pub fn checkpoint_into<M: Mailbox>(
    alloc: Global,
    image: &mut Image<M>,
    past: &mut Vec<Item>,
) -> Result<Answer, Refusal>
    ensures does { Does image.old calls.Checkpoint result image.new }
    ensures past { OnOk result (past.new.items ≡ image.old.history) }
    ensures later { GoesOnIn image.old image.new }
    ensures grows { Grows (posts_by result) (edits_by result) 0 image.old image.new }
{
    image.known();
    let answer = emptied_into(alloc, image, past);
    image.known();
    answer
}

/// Makes a call.
#[inline(always)]
fn perform<M: Mailbox>(alloc: Global, image: &mut Image<M>, call: Call) -> Result<Answer, Refusal>
    ensures { Does image.old call result image.new }
{
    match call {
        Call::Intern(text) => interned(image.intern(alloc, text.as_slice())),
        Call::Define {
            name,
            parent,
            slots,
        } => version(image.define(alloc, name.as_slice(), parent, slots)),
        Call::Install { class, source } => {
            version(image.install(alloc, class, source.as_slice()))
        }
        Call::Remove { class, selector } => version(image.remove(alloc, class, selector)),
        Call::Reparent { class, parent } => version(image.reparent(alloc, class, parent)),
        Call::Create(class) => created(image.create(alloc, class)),
        Call::Post {
            sender,
            seq,
            actor,
            selector,
            args,
        } => position(image.post(alloc, sender, seq, actor, selector, args)),
        Call::Close(actor) => closed(image.close(actor)),
        Call::Checkpoint => checkpoint(alloc, image),
    }
}

/// Interns a text.
fn intern_in<M: Mailbox>(
    alloc: Global,
    image: &mut Image<M>,
    text: &[u8],
) -> Result<Selector, Refusal>
    ensures { InternsIn image.old text.now result image.new }
{
    image.intern(alloc, text)
}

/// Makes the call that interns a text, which is not copied for it.
pub fn intern<M: Mailbox>(
    alloc: Global,
    image: &mut Image<M>,
    text: &[u8],
) -> Result<Selector, Refusal>
    ensures does { Does image.old (calls.Intern text.now) (told answers.Interned result) image.new }
    ensures later { GoesOnIn image.old image.new }
    ensures grows { Grows 0 0 0 image.old image.new }
{
    image.known();
    let answer = intern_in(alloc, image, text);
    image.known();
    answer
}

/// Makes a call. The image goes on in the new one, and has counted as many posts and edits more as the answer tells. Where the kind of the
/// call is known, what is made of it is that of the kind alone.
#[inline(always)]
pub fn apply<M: Mailbox>(alloc: Global, image: &mut Image<M>, call: Call) -> Result<Answer, Refusal>
    ensures does { Does image.old call result image.new }
    ensures later { GoesOnIn image.old image.new }
    ensures grows { Grows (posts_by result) (edits_by result) 0 image.old image.new }
{
    image.known();
    let answer = perform(alloc, image, call);
    image.known();
    answer
}
