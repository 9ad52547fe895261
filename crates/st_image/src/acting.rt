//! What actors do on the whole image: their posts, closes and new actors.
ghost use Rattle.std.specs.Prelude.{◌≡◌, ◌<◌, ◌≤◌, ◌^◌, ℕ, List, All, length, slice_get, [], ◌∷◌, Some, true, false, Ok, IsErr, IfOk, IfErr, IfNone, IfSome, OnOk, OnErr};
ghost use Rattle.std.specs.List.{list_all, list_any};
ghost use Rattle.st_classes.specs.Classes.{class_count};
ghost use Rattle.st_classes.specs.Refusals.{first_of};
ghost use Rattle.st_classes.specs.MethodSuits.{arity_at, is_number};
ghost use Rattle.st_image.specs.ActResults.{Does, FewAccepted, GrowsByOne, IsShown, NamesClasses, StandsBefore, TakesOuter, Tries, constants_of};
ghost use Rattle.st_turn.specs.Idle.{is_idle as idle};
ghost use Rattle.st_image.specs.ActorViews.{Accepts, ActorView, SameOut, Shows, view_after_steps};
ghost use Rattle.st_image.specs.Replay.{after_close, create_result, act_result, is_local as is_local_value, post_result, after_post_by, attempted_act};
ghost use Rattle.st_image.specs.PostRules.{argument_fits as fits_argument, message_fits as fits_message, old_rule, post_rules, sender_last};
ghost use Rattle.st_image.specs.Worlds.{World, change_at};

use crate::actor::Actor;
use crate::actors::Actors;
use st_classes::faults::Fault;
use st_classes::kernel::is_value_class;
use st_classes::limits::ACTORS;
use st_classes::names::Names;
use st_classes::refusals::Refusal;
use st_classes::seq::Seq;
use st_classes::values::{ActorId, ClassId, Selector, Value, Values};
use st_classes::version::Version;
use st_mailbox::mailboxes::Mailbox;
use st_mailbox::messages::{Message, Sender};
use st_turn::acts::Act;
use st_turn::body::Body;
use std::alloc::{AllocError, Global};

// ---- messages

/// Whether an argument is no local and names something that is there.
fn argument_fits<M: Mailbox>(
    names: &Names,
    version: &Version,
    actors: &Actors<M>,
    value: Value,
) -> bool
    ensures { result ≡ fits_argument names.now (class_count version.now) (length actors.now.list) value }
{
    match value {
        Value::Int(_) | Value::Bool(_) | Value::Nil => true,
        Value::Sym(name) => u32::from(name.0) < names.len(),
        Value::Class(class) => u32::from(class.0) < version.classes(),
        Value::Actor(actor) => (actor.0 as usize) < actors.len(),
        Value::Local(_) => false,
    }
}

fn arguments_fit<M: Mailbox>(
    names: &Names,
    version: &Version,
    actors: &Actors<M>,
    args: &[Value],
) -> bool
    ensures { result ≡ list_all (fits_argument names.now (class_count version.now) (length actors.now.list)) args.now }
{
    args.iter()
        .all(|value| argument_fits(names, version, actors, *value))
}

/// Whether a selector is there and takes this many arguments.
fn takes(names: &Names, selector: Selector, count: usize) -> bool
    ensures { result ≡ is_number (arity_at names.now selector) count }
{
    u32::from(selector.0) < names.len() && usize::from(names.arity(selector)) == count
}

/// Whether a message has as many arguments as its selector says, all of which fit.
fn message_fits<M: Mailbox>(
    names: &Names,
    version: &Version,
    actors: &Actors<M>,
    message: &Message,
) -> bool
    ensures { result ≡ fits_message names.now (class_count version.now) (length actors.now.list) message.now }
{
    let args = message.args.as_slice();
    takes(names, message.selector, args.len()) && arguments_fit(names, version, actors, args)
}

/// Why a number is refused after the sender's last one, if it is. A sender that is not there sends nothing.
fn number_refusal(last: Option<u64>, number: u64) -> Option<Refusal>
    ensures { result ≡ first_of (old_rule last number ∷ []) }
{
    match last {
        Some(last) if last < number => None,
        Some(last) => Some(Refusal::Old { last }),
        None => Some(Refusal::Old { last: 0 }),
    }
}

/// Why a message is refused after its sender's last number, if it is.
pub(crate) fn post_refusal<M: Mailbox>(
    names: &Names,
    version: &Version,
    actors: &Actors<M>,
    last: Option<u64>,
    actor: ActorId,
    message: &Message,
) -> Option<Refusal>
    ensures value { (w : World) → Shows version.now actors.now.list w → sender_last w message.now.sender ≡ last → result ≡ first_of (post_rules names.now w (slice_get w.actors actor.0) message.now) }
    ensures there { IfNone result (actor.0 < length actors.now.list) }
    ensures accepts { IfNone result (Accepts actors.now.list actor) }
{
    let Some(found) = actors.get(actor) else {
        return Some(Refusal::UnknownActor);
    };
    if !message_fits(names, version, actors, message) {
        return Some(Refusal::BadArguments);
    }
    match number_refusal(last, message.seq) {
        Some(refusal) => Some(refusal),
        None => found.refusal(),
    }
}

/// An actor's message, with its next number, goes to the mailbox of an actor. The answer is whether that accepted it.
fn try_post<M: Mailbox>(
    alloc: Global,
    names: &Names,
    version: &Version,
    actors: &mut Actors<M>,
    actor: ActorId,
    to: ActorId,
    selector: Selector,
    args: &[Value],
) -> Result<bool, AllocError>
    requires there { actor.0 < length actors.old.list }
    requires few { FewAccepted actors.old.list }
    ensures ok { IfOk result (λ answer. (capacity : ℕ) (w : World) → IsShown names.now capacity version.now actors.old.list w → Tries version.now actors.new.list w (after_post_by (constants_of names.now capacity) to selector args.now actor w (slice_get w.actors actor.0)) answer) }
    ensures grown { OnOk result (GrowsByOne actors.old.list actors.new.list) }
    ensures out { OnOk result (SameOut actors.old.out actors.new.out) }
    ensures err { OnErr result (actors.new ≡ actors.old) }
{
    let last = match actors.get(actor) {
        Some(found) => found.last(),
        None => return Ok(false),
    };
    if last == u64::MAX {
        return Ok(false);
    }
    let message = Message {
        sender: Sender::Actor(actor),
        seq: last + 1,
        selector,
        args: Seq::from_vec(args.to_vec(alloc)?),
    };
    if post_refusal(names, version, actors, Some(last), to, &message).is_some() {
        return Ok(false);
    }
    actors.deliver(to, message);
    actors.set_last(actor, last + 1);
    Ok(true)
}

fn is_local(value: Value) -> bool
    ensures { result ≡ is_local_value value }
{
    matches!(value, Value::Local(_))
}

fn has_local(args: &[Value]) -> bool
    ensures { result ≡ list_any is_local_value args.now }
{
    args.iter().any(|value| is_local(*value))
}

/// A post of an actor: what it answers, or its fault, for which nothing changed.
fn post<M: Mailbox>(
    alloc: Global,
    names: &Names,
    version: &Version,
    actors: &mut Actors<M>,
    actor: ActorId,
    to: ActorId,
    selector: Selector,
    args: &[Value],
) -> Result<Result<Value, Fault>, AllocError>
    requires there { actor.0 < length actors.old.list }
    requires few { FewAccepted actors.old.list }
    ensures ok { IfOk result (λ answer. (capacity : ℕ) (w : World) → IsShown names.now capacity version.now actors.old.list w → Does version.now actors.new.list (post_result (constants_of names.now capacity) to selector args.now actor w) answer) }
    ensures fault { IfOk result (λ answer. IsErr answer → actors.new ≡ actors.old) }
    ensures grown { OnOk result (GrowsByOne actors.old.list actors.new.list) }
    ensures out { OnOk result (SameOut actors.old.out actors.new.out) }
    ensures err { OnErr result (actors.new ≡ actors.old) }
{
    if !takes(names, selector, args.len()) {
        return Ok(Err(Fault::BadArgument));
    }
    if has_local(args) {
        return Ok(Err(Fault::LocalArgument));
    }
    let accepted = try_post(alloc, names, version, actors, actor, to, selector, args)?;
    Ok(Ok(Value::Bool(accepted)))
}

/// A new actor that an actor asks for: the answer is its reference.
fn create<M: Mailbox>(
    alloc: Global,
    version: &Version,
    capacity: u32,
    actors: &mut Actors<M>,
    class: ClassId,
) -> Result<Result<Value, Fault>, AllocError>
    requires class { class.0 < class_count version.now }
    requires some { 1 ≤ capacity }
    requires few { capacity ≤ 1024 }
    ensures ok { IfOk result (λ answer. (names : List (List ℕ)) (w : World) → IsShown names capacity version.now actors.old.list w → Does version.now actors.new.list (create_result (constants_of names capacity) class w) answer) }
    ensures fault { IfOk result (λ answer. IsErr answer → actors.new ≡ actors.old) }
    ensures grown { OnOk result (GrowsByOne actors.old.list actors.new.list) }
    ensures out { OnOk result (SameOut actors.old.out actors.new.out) }
    ensures err { OnErr result (actors.new ≡ actors.old) }
{
    if is_value_class(class) {
        return Ok(Err(Fault::BadArgument));
    }
    if actors.len() >= ACTORS {
        return Ok(Err(Fault::TooManyActors));
    }
    let number = actors.len() as u32;
    let body = Body::fresh(alloc, class, version.slots(class).len())?;
    actors.push(Actor::new(alloc, class, capacity, body)?)?;
    Ok(Ok(Value::Actor(ActorId(number))))
}

/// An actor asks that a mailbox be closed: the answer is whether it was open.
fn close<M: Mailbox>(version: &Version, actors: &mut Actors<M>, to: ActorId) -> Value
    ensures does { (names : List (List ℕ)) (capacity : ℕ) (w : World) → IsShown names capacity version.now actors.old.list w → Does version.now actors.new.list (attempted_act w (after_close w to)) (Ok result) }
    ensures grown { GrowsByOne actors.old.list actors.new.list }
    ensures out { actors.new.out ≡ actors.old.out }
{
    match actors.get(to) {
        Some(found) if found.is_open() => {
            actors.close(to);
            Value::Bool(true)
        }
        _ => Value::Bool(false),
    }
}

/// Does an act: the answer, or its fault, for which nothing changed.
fn perform<M: Mailbox>(
    alloc: Global,
    names: &Names,
    version: &Version,
    capacity: u32,
    actors: &mut Actors<M>,
    actor: ActorId,
    act: Act,
) -> Result<Result<Value, Fault>, AllocError>
    requires there { actor.0 < length actors.old.list }
    requires few { FewAccepted actors.old.list }
    requires class { NamesClasses version.now act }
    requires some { 1 ≤ capacity }
    requires few_messages { capacity ≤ 1024 }
    ensures ok { IfOk result (λ answer. (w : World) → IsShown names.now capacity version.now actors.old.list w → Does version.now actors.new.list (act_result (constants_of names.now capacity) actor w act) answer) }
    ensures fault { IfOk result (λ answer. IsErr answer → actors.new ≡ actors.old) }
    ensures grown { OnOk result (GrowsByOne actors.old.list actors.new.list) }
    ensures out { OnOk result (SameOut actors.old.out actors.new.out) }
    ensures err { OnErr result (actors.new ≡ actors.old) }
{
    match act {
        Act::Post { actor: to, args } => match args.as_slice() {
            [Value::Sym(selector), rest @ ..] => post(
                alloc, names, version, actors, actor, to, *selector, rest,
            ),
            _ => Ok(Err(Fault::BadArgument)),
        },
        Act::Close(to) => Ok(Ok(close(version, actors, to))),
        Act::Create(class) => create(alloc, version, capacity, actors, class),
    }
}

// ---- the image's step

/// Takes the next step of an actor if it is the image's to take, as the caller knows. The answer is whether it was.
fn take_outer<M: Mailbox>(
    alloc: Global,
    names: &Names,
    version: &Version,
    capacity: u32,
    actors: &mut Actors<M>,
    actor: ActorId,
    is_act_next: bool,
) -> Result<bool, AllocError>
    requires there { actor.0 < length actors.old.list }
    requires few { FewAccepted actors.old.list }
    requires shown { (w : World) × IsShown names.now capacity version.now actors.old.list w }
    requires act { (w : World) → IsShown names.now capacity version.now actors.old.list w → StandsBefore actor w is_act_next }
    ensures ok { IfOk result (λ outer. (w : World) → IsShown names.now capacity version.now actors.old.list w → TakesOuter (constants_of names.now capacity) version.now actors.old.list actors.new.list actor w outer) }
    ensures stands { OnErr result ((w : World) → IsShown names.now capacity version.now actors.old.list w → StandsBefore actor w true) }
    ensures grown { OnOk result (GrowsByOne actors.old.list actors.new.list) }
    ensures out { OnOk result (SameOut actors.old.out actors.new.out) }
    ensures err { OnErr result (actors.new ≡ actors.old) }
{
    if !is_act_next {
        return Ok(false);
    }
    let Some(act) = actors.next_act(alloc, version, actor)? else {
        return Ok(false);
    };
    match perform(alloc, names, version, capacity, actors, actor, act)? {
        Ok(value) => actors.give(version, actor, value),
        Err(fault) => actors.fail(version, actor, fault)?,
    }
    Ok(true)
}

/// Steps of an actor's own have led to a body, and the image's step is taken if it comes next, as the caller knows. The answer is
/// whether it was. If memory runs out, nothing changes and the body is given back. Otherwise the body before is left.
#[inline(always)]
pub(crate) fn put_steps<M: Mailbox>(
    alloc: Global,
    names: &Names,
    version: &Version,
    capacity: u32,
    actors: &mut Actors<M>,
    actor: ActorId,
    after: Body,
    next_copy: &mut Option<Body>,
    is_act_next: bool,
    left: &mut Option<Body>,
) -> Result<bool, Body>
    requires there { actor.0 < length actors.old.list }
    requires next_copy { IfSome next_copy.old (λ t. t ≡ after) }
    requires few { FewAccepted actors.old.list }
    requires busy { (k : ActorView) → slice_get actors.old.list actor.0 ≡ Some k → idle k.body.phase ≡ false }
    requires shown { (w : World) × IsShown names.now capacity version.now (change_at (view_after_steps after) actor.0 actors.old.list) w }
    requires act { (w : World) → IsShown names.now capacity version.now (change_at (view_after_steps after) actor.0 actors.old.list) w → StandsBefore actor w is_act_next }
    ensures ok { IfOk result (λ outer. (w : World) → IsShown names.now capacity version.now (change_at (view_after_steps after) actor.0 actors.old.list) w → TakesOuter (constants_of names.now capacity) version.now (change_at (view_after_steps after) actor.0 actors.old.list) actors.new.list actor w outer) }
    ensures grown { OnOk result (GrowsByOne actors.old.list actors.new.list) }
    ensures out { OnOk result (SameOut actors.old.out actors.new.out) }
    ensures left { IfSome next_copy.new (λ t. t ≡ after) }
    ensures back { IfErr result (λ b. b ≡ after) }
    ensures err { OnErr result (actors.new ≡ actors.old) }
{
    let was = match actors.put_body(actor, after, next_copy) {
        Ok(was) => was,
        Err(after) => return Err(after),
    };
    match take_outer(alloc, names, version, capacity, actors, actor, is_act_next) {
        Ok(outer) => {
            *left = Some(was);
            Ok(outer)
        }
        Err(_) => Err(actors.put_back(actor, was)),
    }
}
