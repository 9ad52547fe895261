//! One handler of commands, whoever holds the image.
ghost use Rattle.std.specs.Prelude.{◌≡◌};
ghost use Rattle.st_image.specs.GoingOn.{GoesOnIn};
ghost use Rattle.st_script.specs.CallOf.{Makes, RepliesTo, answer_reply};
ghost use Rattle.st_image.specs.Outcomes.{image_outcome};
ghost use Rattle.st_script.specs.CommandReplies.{Asks, RepliesOutcome, Waits};

use crate::calls_of::call_of;
use crate::images::Image;
use crate::posting::{Posting, post};
use crate::replacing::replace;
use crate::resolving::shown;
use crate::statistics::stats;
use st_calls::calls::{Answer, Call};
use st_calls::holders::Holder;
use st_classes::refusals::Refusal;
use st_classes::values::ActorId;
use st_image::counts::Counts;
use st_mailbox::ring_box::RingBox;
use st_queries::hosts::{Host, epoch};
use st_queries::replying::look;
use st_turn::body::Outcome;
use st_wire::commands::Command;
use st_wire::replies::Reply;
use std::alloc::{AllocError, Global};

/// The reply by what a call answered.
pub(crate) fn reply_of(answer: Result<Answer, Refusal>) -> Reply
    ensures { result ≡ answer_reply answer }
{
    match answer {
        Ok(Answer::Version(edits)) => Reply::Version(edits),
        Ok(Answer::Created(actor)) => Reply::Actor(actor),
        Ok(Answer::Position(turn)) => Reply::Turn(turn),
        Ok(Answer::Closed) => Reply::Closed,
        Ok(Answer::Counted(Counts { posts, steps })) => Reply::Counted { posts, steps },
        Ok(Answer::Interned(_)) => Reply::Refused(Refusal::BadCommand),
        Err(refusal) => Reply::Refused(refusal),
    }
}

/// Makes a call.
#[tactic(auto, using(st_calls::proofs::GoingThen::goes_then, st_calls::proofs::GoingThen::goes_by))]
#[inline(always)]
pub(crate) fn make<H: Holder<RingBox>>(
    alloc: Global,
    holder: &mut H,
    mine: &mut H::Mine,
    call: Call,
) -> Reply
    ensures replies { RepliesTo (H.calls holder.old mine.old call) result holder.new mine.new }
    ensures later { GoesOnIn (H.image_of holder.old) (H.image_of holder.new) }
{
    let answer = holder.apply(alloc, mine, call);
    reply_of(answer)
}

/// The reply to a command that makes one call of the image.
#[tactic(auto, using(st_calls::proofs::GoingThen::goes_then, st_calls::proofs::GoingThen::goes_by))]
fn perform<H: Holder<RingBox>>(
    alloc: Global,
    holder: &mut H,
    mine: &mut H::Mine,
    command: Command,
) -> Reply
    ensures makes { Makes H.image_of H.calls holder.old mine.old command result holder.new mine.new }
    ensures later { GoesOnIn (H.image_of holder.old) (H.image_of holder.new) }
{
    match call_of(holder.image(), command) {
        Ok(call) => make(alloc, holder, mine, call),
        Err(refusal) => Reply::Refused(refusal),
    }
}

pub(crate) fn outcome(alloc: Global, image: &Image, actor: ActorId, turn: u64) -> Reply
    ensures { RepliesOutcome image.now (image_outcome image.now actor turn) result }
{
    match image.outcome(actor, turn) {
        Ok(Outcome::Answer(value)) => match shown(alloc, image, value) {
            Ok(value) => Reply::Answer(value),
            Err(_) => Reply::Refused(Refusal::NoMemory),
        },
        Ok(Outcome::Fault(fault)) => Reply::Fault(fault),
        Err(refusal) => Reply::Refused(refusal),
    }
}

/// The reply to one who waits for an outcome. It does not wait itself.
fn wait(alloc: Global, image: &Image, host: Host, text: &[u8], actor: ActorId, turn: u64) -> Reply
    ensures { Waits image.now host text.now actor turn result }
{
    let Ok(present) = epoch(alloc, host) else {
        return Reply::Refused(Refusal::NoMemory);
    };
    if text != present.as_bytes() {
        return Reply::Refused(Refusal::Expired);
    }
    outcome(alloc, image, actor, turn)
}

/// The reply to a command that needs the image alone, and what is known of the program that holds it. A run needs a worker, and is
/// refused here by BadCommand. None waits.
#[tactic(auto, using(st_calls::proofs::GoingThen::goes_then, st_calls::proofs::GoingThen::goes_by))]
pub fn ask<H: Holder<RingBox>>(
    alloc: Global,
    holder: &mut H,
    mine: &mut H::Mine,
    host: Host,
    command: Command,
) -> Reply
    ensures asks { Asks H.image_of H.calls host holder.old mine.old command result holder.new mine.new }
    ensures later { GoesOnIn (H.image_of holder.old) (H.image_of holder.new) }
{
    match command {
        Command::Post {
            actor,
            args,
            selector,
            sender,
            seq,
        } => {
            let posting = Posting {
                actor,
                arguments: args.as_slice(),
                sender,
                seq,
            };
            post(alloc, holder, mine, &posting, selector.as_slice())
        }
        Command::Outcome { actor, turn } => outcome(alloc, holder.image(), actor, turn),
        Command::Replace {
            class,
            over,
            source,
        } => replace(alloc, holder, mine, class.as_slice(), over, source),
        Command::Wait {
            actor,
            epoch,
            ms: _,
            turn,
        } => wait(alloc, holder.image(), host, epoch.as_slice(), actor, turn),
        Command::Stats { class, selector } => {
            stats(alloc, holder.image(), class.as_slice(), selector.as_slice())
        }
        Command::Query(query) => look(alloc, holder.image(), host, query),
        command => perform(alloc, holder, mine, command),
    }
}
