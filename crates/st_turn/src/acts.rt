//! Acts: what a step asks the image to do.
ghost use Rattle.std.specs.Prelude.{◌≡◌, ◌&&◌, List, length, is_some, nat_le, slice_get, Some, IfOk};
ghost use Rattle.st_classes.specs.declared.values.Value.{Value as ValueOf};
ghost use Rattle.st_turn.specs.declared.acts.Act.{Act as ActOf};
ghost use Rattle.st_turn.specs.BodyFits.{FitsSome};
ghost use Rattle.st_turn.specs.StepResults.{IsAct};
ghost use Rattle.st_turn.specs.Steps.{act_in, act_of as act_for, next_site_in, outer, reply_body, step};

use crate::body::{Body, Outcome, Phase};
use crate::general::fetch;
use st_classes::faults::Fault;
use st_classes::instructions::Instruction;
use st_classes::kernel::{CLOSE, NEW_ACTOR, POST, POST_WITH, POST_WITH_WITH};
use st_classes::keys::SiteId;
use st_classes::seq::Seq;
use st_classes::values::{ActorId, ClassId, Selector, Value, Values};
use st_classes::version::Version;
use std::alloc::{AllocError, Global};

/// A step that does not change its actor alone. The image does it, and the turn goes on with the image's answer or ends with its
/// fault.
#[derive(Drop)]
pub enum Act {
    /// A post to an actor. `args` are the arguments of the post itself, not yet checked: they should be the symbol of a selector,
    /// and then the arguments for it.
    Post { actor: ActorId, args: Values },
    /// The mailbox of an actor is closed.
    Close(ActorId),
    /// A new actor of a class is made.
    Create(ClassId),
}

/// Whether a selector is one of the three that post to an actor.
#[inline(always)]
fn is_post(selector: Selector) -> bool
    ensures { result ≡ (nat_le 16 selector.0 && nat_le selector.0 18) }
{
    matches!(selector, POST | POST_WITH | POST_WITH_WITH)
}

/// Whether a message with `count` arguments is an act: a post to an actor, the close of its mailbox, or a new actor.
#[inline(always)]
pub(crate) fn is_act(receiver: Value, selector: Selector, count: u8) -> bool
    ensures { (args : List ValueOf) → length args ≡ count → result ≡ is_some (act_for receiver selector args) }
{
    match receiver {
        Value::Actor(_) => is_post(selector) || selector == CLOSE && count == 0,
        Value::Class(_) => selector == NEW_ACTOR && count == 0,
        _ => false,
    }
}

/// The act that a message is, if it is one.
fn act_of(
    alloc: Global,
    receiver: Value,
    selector: Selector,
    args: &[Value],
) -> Result<Option<Act>, AllocError>
    ensures { IfOk result (λ act. act ≡ act_for receiver selector args.now) }
{
    match receiver {
        Value::Actor(actor) if is_post(selector) => Ok(Some(Act::Post {
            actor,
            args: Seq::from_vec(args.to_vec(alloc)?),
        })),
        Value::Actor(actor) if selector == CLOSE && args.is_empty() => Ok(Some(Act::Close(actor))),
        Value::Class(class) if selector == NEW_ACTOR && args.is_empty() => Ok(Some(Act::Create(
            class,
        ))),
        _ => Ok(None),
    }
}

/// Whether the next step of a body is an act.
pub fn is_act_next(body: &Body, actor: ActorId, version: &Version) -> bool
    requires { FitsSome version.now actor body.now }
    ensures { result ≡ is_some (act_in (step version.now actor body.now)) }
{
    version.known();
    let Phase::Frames(frames) = &body.phase else {
        return false;
    };
    let method = version.installed(frames.method());
    match fetch(method, frames) {
        Instruction::Send(selector, count) => {
            is_act(frames.receiver_below(count), selector, count)
        }
        _ => false,
    }
}

/// The act that is the next step of a body, if it is one.
pub fn next_act(
    alloc: Global,
    body: &Body,
    actor: ActorId,
    version: &Version,
) -> Result<Option<Act>, AllocError>
    requires { FitsSome version.now actor body.now }
    ensures { IfOk result (λ act. act ≡ act_in (step version.now actor body.now)) }
{
    version.known();
    let Phase::Frames(frames) = &body.phase else {
        return Ok(None);
    };
    let method = version.installed(frames.method());
    match fetch(method, frames) {
        Instruction::Send(selector, count) => {
            let receiver = frames.receiver_below(count);
            act_of(alloc, receiver, selector, frames.arguments(count))
        }
        _ => Ok(None),
    }
}

/// The place of the instruction that a body executes next; none if no frame runs.
pub fn next_site(body: &Body) -> Option<SiteId>
    ensures { result ≡ next_site_in body.now.phase }
{
    let Phase::Frames(frames) = &body.phase else {
        return None;
    };
    Some(SiteId {
        method: frames.method(),
        place: frames.pc(),
    })
}

/// Takes the next step of a body, an act that the image has done: the turn goes on with the image's answer, or ends with its fault.
pub fn reply(body: &mut Body, actor: ActorId, version: &Version, answer: Result<Value, Fault>)
    requires fits { FitsSome version.now actor body.old }
    requires act { IsAct (step version.now actor body.old) }
    ensures { (act : ActOf) → step version.now actor body.old ≡ outer act → body.new ≡ reply_body act answer body.old }
{
    version.known();
    let Phase::Frames(frames) = &mut body.phase else {
        return;
    };
    let method = version.installed(frames.method());
    let Instruction::Send(_, count) = fetch(method, frames) else {
        return;
    };
    match answer {
        Ok(value) => frames.give(count, value),
        Err(fault) => body.phase = Phase::Done(Outcome::Fault(fault)),
    }
}
