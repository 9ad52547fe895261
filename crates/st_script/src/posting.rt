//! A post: its selector and then its arguments are resolved, from the left, before it is posted.
ghost use Rattle.std.specs.Prelude.{◌≡◌, ◌⊎◌, Err};
ghost use Rattle.st_classes.specs.declared.refusals.Refusal.TheVariants.{NoMemory};
ghost use Rattle.st_image.specs.GoingOn.{GoesOnIn};
ghost use Rattle.st_script.specs.Posting.{AllResolve, InternsBy, IsSymbol, Nothing, PostsArguments, PostsNamed, Resolves};

use crate::asking::make;
use st_calls::calls::Call;
use st_calls::holders::Holder;
use st_classes::refusals::Refusal;
use st_classes::seq::Seq;
use st_classes::values::{ActorId, Selector, Value, Values};
use st_mailbox::ring_box::RingBox;
use st_wire::commands::Argument;
use st_wire::replies::Reply;
use std::alloc::Global;

/// The symbol of a text, which is interned.
#[tactic(auto, using(st_calls::proofs::GoingThen::goes_then, st_calls::proofs::GoingThen::goes_by))]
fn symbol<H: Holder<RingBox>>(
    alloc: Global,
    holder: &mut H,
    mine: &mut H::Mine,
    text: &[u8],
) -> Result<Value, Refusal>
    ensures symbol { IsSymbol H.calls holder.old mine.old text.now result holder.new mine.new }
    ensures later { GoesOnIn (H.image_of holder.old) (H.image_of holder.new) }
{
    match holder.intern(alloc, mine, text) {
        Ok(selector) => Ok(Value::Sym(selector)),
        Err(refusal) => Err(refusal),
    }
}

/// The value of an argument. A symbol's text is interned.
#[tactic(auto, using(st_calls::proofs::GoingThen::goes_then, st_calls::proofs::GoingThen::goes_by))]
fn argument_value<H: Holder<RingBox>>(
    alloc: Global,
    holder: &mut H,
    mine: &mut H::Mine,
    argument: &Argument,
) -> Result<Value, Refusal>
    ensures value { Resolves H.image_of H.calls holder.old mine.old argument.now result holder.new mine.new }
    ensures later { GoesOnIn (H.image_of holder.old) (H.image_of holder.new) }
{
    match argument {
        Argument::Int(n) => Ok(Value::Int(*n)),
        Argument::Bool(b) => Ok(Value::Bool(*b)),
        Argument::Nil => Ok(Value::Nil),
        Argument::Symbol(text) => symbol(alloc, holder, mine, text.as_slice()),
        Argument::Class(text) => match holder.image().version().class_named(text.as_slice()) {
            Some(class) => Ok(Value::Class(class)),
            None => Err(Refusal::UnknownClass),
        },
        Argument::Actor(actor) => Ok(Value::Actor(*actor)),
    }
}

/// The values of arguments, from the left up to the first that is refused.
#[tactic(auto, using(st_calls::proofs::GoingThen::goes_then, st_calls::proofs::GoingThen::goes_by))]
fn argument_values<H: Holder<RingBox>>(
    alloc: Global,
    holder: &mut H,
    mine: &mut H::Mine,
    arguments: &[Argument],
) -> Result<Values, Refusal>
    ensures values { ((result ≡ Err NoMemory) × Nothing holder.old mine.old holder.new mine.new) ⊎ AllResolve H.image_of H.calls holder.old mine.old arguments.now result holder.new mine.new }
    ensures later { GoesOnIn (H.image_of holder.old) (H.image_of holder.new) }
{
    let mut values = Vec::with_capacity(alloc, arguments.len())?;
    for argument in arguments {
        match argument_value(alloc, holder, mine, argument) {
            Ok(value) => values.push(value).unwrap(),
            Err(refusal) => return Err(refusal),
        }
    }
    Ok(Seq::from_vec(values))
}

/// What a client asks to be posted.
#[derive(Drop)]
pub(crate) struct Posting<'a> {
    pub(crate) actor: ActorId,
    pub(crate) arguments: &'a [Argument],
    pub(crate) sender: u16,
    pub(crate) seq: u64,
}

#[tactic(auto, using(st_calls::proofs::GoingThen::goes_then, st_calls::proofs::GoingThen::goes_by))]
fn post_arguments<H: Holder<RingBox>>(
    alloc: Global,
    holder: &mut H,
    mine: &mut H::Mine,
    posting: &Posting<'_>,
    selector: Selector,
) -> Reply
    ensures posts { PostsArguments H.image_of H.calls holder.old mine.old posting.now.actor posting.now.arguments.now selector posting.now.sender posting.now.seq result holder.new mine.new }
    ensures later { GoesOnIn (H.image_of holder.old) (H.image_of holder.new) }
{
    let Posting {
        actor,
        arguments,
        sender,
        seq,
    } = *posting;
    match argument_values(alloc, holder, mine, arguments) {
        Ok(args) => make(
            alloc,
            holder,
            mine,
            Call::Post {
                sender,
                seq,
                actor,
                selector,
                args,
            },
        ),
        Err(refusal) => Reply::Refused(refusal),
    }
}

/// Posts a message.
#[tactic(auto, using(st_calls::proofs::GoingThen::goes_then, st_calls::proofs::GoingThen::goes_by))]
pub(crate) fn post<H: Holder<RingBox>>(
    alloc: Global,
    holder: &mut H,
    mine: &mut H::Mine,
    posting: &Posting<'_>,
    selector: &[u8],
) -> Reply
    ensures posts { PostsNamed H.image_of H.calls holder.old mine.old posting.now.actor posting.now.arguments.now selector.now posting.now.sender posting.now.seq result holder.new mine.new }
    ensures later { GoesOnIn (H.image_of holder.old) (H.image_of holder.new) }
{
    match holder.intern(alloc, mine, selector) {
        Ok(selector) => post_arguments(alloc, holder, mine, posting, selector),
        Err(refusal) => Reply::Refused(refusal),
    }
}
