//! A turn that failed: its frames, and the message, both just before the step that failed.
ghost use Rattle.std.specs.Prelude.{◌≡◌, [], ◌∷◌, ◌++◌, IfOk};
ghost use Rattle.serde_json.specs.Data.{string};
ghost use Rattle.serde_json.specs.View.{view};
ghost use Rattle.st_classes.specs.EditLists.{method_at};
ghost use Rattle.st_image.specs.CompiledEdits.{AllCompiled};
ghost use Rattle.st_queries.specs.Answers.{IsAnswer};
ghost use Rattle.st_queries.specs.Failing.{ending_told, failing_by_sent, failing_by_value, failing_told, frame_told, frames_in, frames_told, holder_text, offset_at as offset_in, offset_told, own_selector, slots_of, tested as tested_in};

use crate::endings::{Ending, Failing};
use crate::outcomes::outcome;
use crate::sent::{Sent, class_of, next_sent, tell_sent};
use crate::sources::source_at;
use crate::texts::{class_text, selector_text};
use crate::values::{Table, value, values};
use st_classes::refusals::Refusal;
use st_classes::values::{MethodId, Value};
use st_turn::body::{Objects, Phase};
use st_turn::frame::FrameRef;
use st_turn::stack::Stack;
use st_wire::names::fault_name;
use st_wire::told::{Items, Members, Told};
use std::alloc::{AllocError, Global};

/// The values of the instance variables of a receiver; only an object has some.
fn slots<'a>(objects: &'a Objects, receiver: Value) -> &'a [Value]
    ensures { result.now ≡ slots_of objects.now receiver }
{
    let Value::Local(place) = receiver else {
        return &[];
    };
    match objects.as_slice().get(place as usize) {
        Some(object) => object.slots.as_slice(),
        None => &[],
    }
}

/// The class that holds a method.
#[tactic(auto, using(st_file::proofs::TableTexts::empty_is_text))]
fn holder(alloc: Global, table: Table<'_>, method: MethodId) -> Result<Told, AllocError>
    ensures { IfOk result (λ told. view told ≡ string (holder_text table.entry.version.now (method_at table.entry.version.now method))) }
{
    match table.version.method(method) {
        Some(method) => class_text(alloc, table.version, method.holder()),
        None => Told::text(alloc, b""),
    }
}

/// The selector of a method.
#[tactic(auto, using(st_file::proofs::TableTexts::empty_is_text))]
fn selector(alloc: Global, table: Table<'_>, method: MethodId) -> Result<Told, AllocError>
    ensures { IfOk result (λ told. view told ≡ string (own_selector table.entry.names.now (method_at table.entry.version.now method))) }
{
    match table.version.method(method) {
        Some(method) => selector_text(alloc, table.names, method.selector()),
        None => Told::text(alloc, b""),
    }
}

/// The offset of the frame at a place.
fn offset_at(offsets: &[Option<u16>], place: usize) -> Option<u16>
    ensures { result ≡ offset_in offsets.now place }
{
    match offsets.get(place) {
        Some(offset) => *offset,
        None => None,
    }
}

/// An offset, or null.
fn offset(offset: Option<u16>) -> Told
    ensures { view result ≡ offset_told offset }
{
    match offset {
        Some(offset) => Told::whole(offset.into()),
        None => Told::nothing(),
    }
}

/// A frame.
fn frame(
    alloc: Global,
    table: Table<'_>,
    objects: &Objects,
    at: Option<u16>,
    frame: &FrameRef<'_>,
) -> Result<Told, AllocError>
    requires { AllCompiled table.names.now table.version.now }
    ensures { IfOk result (λ told. view told ≡ frame_told table.entry.names.now table.entry.version.now objects.now at frame.now) }
{
    let Table { names, version } = table;
    let class = class_of(objects, frame.receiver);
    let variables = slots(objects, frame.receiver);
    let mut members = Members::new(alloc);
    members.put(alloc, "class", class_text(alloc, version, class)?)?;
    members.put(alloc, "holder", holder(alloc, table, frame.method)?)?;
    members.put(alloc, "method", Told::whole(frame.method.0.into()))?;
    members.put(alloc, "offset", offset(at))?;
    members.put(
        alloc,
        "receiver",
        value(alloc, names, version, frame.receiver)?,
    )?;
    members.put(alloc, "selector", selector(alloc, table, frame.method)?)?;
    members.put(alloc, "slots", values(alloc, table, variables)?)?;
    members.put(
        alloc,
        "source",
        source_at(alloc, names, version, frame.method)?,
    )?;
    members.put(alloc, "temps", values(alloc, table, frame.temps)?)?;
    Ok(members.told())
}

/// The frames of a stack, from the first to the running one.
fn all_frames(
    alloc: Global,
    table: Table<'_>,
    objects: &Objects,
    offsets: &[Option<u16>],
    stack: &Stack,
) -> Result<Told, AllocError>
    requires { AllCompiled table.names.now table.version.now }
    ensures { IfOk result (λ told. view told ≡ frames_told table.entry.names.now table.entry.version.now offsets.now objects.now (stack.now.callers ++ stack.now.running ∷ [])) }
{
    let mut items = Items::new(alloc);
    for place in 0..stack.waiting() {
        match stack.waiting_frame(place) {
            Some(waiting) => {
                let at = offset_at(offsets, place);
                items.push(frame(alloc, table, objects, at, &waiting)?)?;
            }
            None => unreachable!(),
        }
    }
    let at = offset_at(offsets, stack.waiting());
    items.push(frame(alloc, table, objects, at, &stack.running_frame())?)?;
    Ok(items.told())
}

/// The frames of a turn; none before its message was dispatched.
fn frames(
    alloc: Global,
    table: Table<'_>,
    objects: &Objects,
    offsets: &[Option<u16>],
    phase: &Phase,
) -> Result<Told, AllocError>
    requires { AllCompiled table.names.now table.version.now }
    ensures { IfOk result (λ told. view told ≡ frames_told table.entry.names.now table.entry.version.now offsets.now objects.now (frames_in phase.now)) }
{
    match phase {
        Phase::Frames(stack) => all_frames(alloc, table, objects, offsets, stack),
        _ => Ok(Items::new(alloc).told()),
    }
}

/// The value that a conditional jump of the running frame tests.
fn tested(phase: &Phase) -> Value
    ensures { result ≡ tested_in phase.now }
{
    let Phase::Frames(stack) = phase else {
        return Value::Nil;
    };
    match stack.operands().last() {
        Some(value) => *value,
        None => Value::Nil,
    }
}

/// What is told of a turn that failed by a message.
fn tell_by_sent(
    alloc: Global,
    table: Table<'_>,
    offsets: &[Option<u16>],
    failing: &Failing,
    sent: &Sent<'_>,
) -> Result<Told, AllocError>
    requires { AllCompiled table.names.now table.version.now }
    ensures { IfOk result (λ told. view told ≡ failing_by_sent table.entry.names.now table.entry.version.now offsets.now failing.now sent.now) }
{
    let body = &failing.body;
    let mut members = Members::new(alloc);
    members.put(
        alloc,
        "fault",
        Told::word(alloc, fault_name(failing.fault))?,
    )?;
    members.put(
        alloc,
        "frames",
        frames(alloc, table, &body.objects, offsets, &body.phase)?,
    )?;
    members.put(alloc, "send", tell_sent(alloc, table, &body.objects, sent)?)?;
    members.put(alloc, "step", Told::whole(failing.step))?;
    Ok(members.told())
}

/// What is told of a turn that failed where a value was tested.
fn tell_by_value(
    alloc: Global,
    table: Table<'_>,
    offsets: &[Option<u16>],
    failing: &Failing,
) -> Result<Told, AllocError>
    requires { AllCompiled table.names.now table.version.now }
    ensures { IfOk result (λ told. view told ≡ failing_by_value table.entry.names.now table.entry.version.now offsets.now failing.now) }
{
    let body = &failing.body;
    let mut members = Members::new(alloc);
    members.put(
        alloc,
        "fault",
        Told::word(alloc, fault_name(failing.fault))?,
    )?;
    members.put(
        alloc,
        "frames",
        frames(alloc, table, &body.objects, offsets, &body.phase)?,
    )?;
    members.put(alloc, "step", Told::whole(failing.step))?;
    members.put(
        alloc,
        "value",
        value(alloc, table.names, table.version, tested(&body.phase))?,
    )?;
    Ok(members.told())
}

/// What is told of a turn that failed.
fn tell_failing(
    alloc: Global,
    table: Table<'_>,
    offsets: &[Option<u16>],
    failing: &Failing,
) -> Result<Told, AllocError>
    requires { AllCompiled table.names.now table.version.now }
    ensures { IfOk result (λ told. view told ≡ failing_told table.entry.names.now table.entry.version.now offsets.now failing.now) }
{
    match next_sent(table.version, &failing.body) {
        Some(sent) => tell_by_sent(alloc, table, offsets, failing, &sent),
        None => tell_by_value(alloc, table, offsets, failing),
    }
}

/// What is told of how the turn ended that is asked for; `UnknownActor` where none is.
pub(crate) fn tell_ending(
    alloc: Global,
    table: Table<'_>,
    offsets: &[Option<u16>],
    ending: &Option<Ending>,
) -> Result<Told, Refusal>
    requires { AllCompiled table.names.now table.version.now }
    ensures { IsAnswer (ending_told table.entry.names.now table.entry.version.now offsets.now ending.now) result }
{
    match ending {
        Some(Ending::Failed(failing)) => Ok(tell_failing(alloc, table, offsets, failing)?),
        Some(Ending::Known(Ok(known))) => Ok(outcome(alloc, table, *known)?),
        Some(Ending::Known(Err(refusal))) => Err(*refusal),
        None => Err(Refusal::UnknownActor),
    }
}
