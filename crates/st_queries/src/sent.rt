//! The message that failed: the one that the next step of a body sends.
ghost use Rattle.std.specs.Prelude.{◌≡◌, IfOk, List, option_map, slice_get};
ghost use Rattle.serde_json.specs.View.{view};
ghost use Rattle.st_classes.specs.declared.values.Value.TheVariants.{Local};
ghost use Rattle.st_image.specs.SentMessages.{instruction_message, message_sent};
ghost use Rattle.st_turn.specs.declared.body.Object.{Object};
ghost use Rattle.st_turn.specs.Objects.{class_in};
ghost use Rattle.st_turn.specs.Steps.{arguments as arguments_in, receiver_below as receiver_in};
ghost use Rattle.st_queries.specs.Sent.{sent_of, sent_told};

use crate::texts::{class_text, selector_text};
use crate::values::{Table, value, values};
use st_classes::instructions::Instruction;
use st_classes::kernel::{
    ACTOR_REF, CLASS, FALSE, OBJECT, SMALL_INTEGER, SYMBOL, TRUE, UNDEFINED_OBJECT,
};
use st_classes::methods::Method;
use st_classes::values::{ClassId, Selector, Value};
use st_classes::version::Version;
use st_turn::body::{Body, Objects, Phase};
use st_turn::stack::Stack;
use st_wire::told::{Members, Told};
use std::alloc::{AllocError, Global};
use std::marker::Model;

/// A message.
#[derive(Drop)]
pub(crate) struct Sent<'a> {
    is_super: bool,
    receiver: Value,
    selector: Selector,
    args: &'a [Value],
}

impl<'a> Model for Sent<'a> {
    ghost use Rattle.st_queries.specs.Sent.{Sent as SentOf};

    ghost Value = { SentOf };

    ghost view = { λ s. record { is_super = s.is_super; receiver = s.receiver; selector = s.selector; args = s.args.now } };
}

/// The last operands, this many.
fn arguments(operands: &[Value], count: u8) -> &[Value]
    ensures { result.now ≡ arguments_in count operands.now }
{
    &operands[operands.len().saturating_sub(usize::from(count))..]
}

/// The operand below this many arguments; nil if there is none.
fn receiver_below(operands: &[Value], count: u8) -> Value
    ensures { result ≡ receiver_in count operands.now }
{
    let place = operands
        .len()
        .saturating_sub(usize::from(count))
        .saturating_sub(1);
    match operands.get(place) {
        Some(receiver) => *receiver,
        None => Value::Nil,
    }
}

/// What the next instruction of the running frame sends, if it sends.
fn by_instruction<'a>(method: &Method, stack: &'a Stack) -> Option<Sent<'a>>
    ensures { (objects : List Object) → result ≡ option_map sent_of (instruction_message method.now objects stack.now (slice_get method.now.code stack.now.running.pc)) }
{
    let operands = stack.operands();
    match method.code().get(usize::from(stack.pc())) {
        Some(Instruction::Send(selector, count)) => Some(Sent {
            is_super: false,
            receiver: receiver_below(operands, *count),
            selector: *selector,
            args: arguments(operands, *count),
        }),
        Some(Instruction::SuperSend(selector, count)) => Some(Sent {
            is_super: true,
            receiver: stack.receiver(),
            selector: *selector,
            args: arguments(operands, *count),
        }),
        _ => None,
    }
}

/// The message that the next step of a body sends, if it sends one.
pub(crate) fn next_sent<'a>(version: &Version, body: &'a Body) -> Option<Sent<'a>>
    ensures { result ≡ option_map sent_of (message_sent version.now body.now) }
{
    match &body.phase {
        Phase::Start { selector, args } => Some(Sent {
            is_super: false,
            receiver: Value::Local(0),
            selector: *selector,
            args: args.as_slice(),
        }),
        Phase::Frames(stack) => by_instruction(version.method(stack.method())?, stack),
        _ => None,
    }
}

/// The class of an object; Object if it does not exist.
fn object_class(objects: &Objects, place: u32) -> ClassId
    ensures { result ≡ class_in objects.now (Local place) }
{
    match objects.as_slice().get(place as usize) {
        Some(object) => object.class,
        None => OBJECT,
    }
}

/// The class of a value among objects.
pub(crate) fn class_of(objects: &Objects, value: Value) -> ClassId
    ensures { result ≡ class_in objects.now value }
{
    match value {
        Value::Int(_) => SMALL_INTEGER,
        Value::Bool(true) => TRUE,
        Value::Bool(false) => FALSE,
        Value::Nil => UNDEFINED_OBJECT,
        Value::Sym(_) => SYMBOL,
        Value::Actor(_) => ACTOR_REF,
        Value::Class(_) => CLASS,
        Value::Local(place) => object_class(objects, place),
    }
}

/// What is told of a message.
pub(crate) fn tell_sent(
    alloc: Global,
    table: Table<'_>,
    objects: &Objects,
    sent: &Sent<'_>,
) -> Result<Told, AllocError>
    ensures { IfOk result (λ told. view told ≡ sent_told table.entry.names.now table.entry.version.now objects.now sent.now) }
{
    let class = class_of(objects, sent.receiver);
    let mut members = Members::new(alloc);
    members.put(alloc, "args", values(alloc, table, sent.args)?)?;
    members.put(alloc, "class", class_text(alloc, table.version, class)?)?;
    members.put(
        alloc,
        "receiver",
        value(alloc, table.names, table.version, sent.receiver)?,
    )?;
    members.put(
        alloc,
        "selector",
        selector_text(alloc, table.names, sent.selector)?,
    )?;
    members.put(alloc, "super", Told::truth(sent.is_super))?;
    Ok(members.told())
}
