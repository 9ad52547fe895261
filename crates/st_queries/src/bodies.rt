//! Bodies, as image files have them.
ghost use Rattle.std.specs.Prelude.{◌≡◌, IfOk};
ghost use Rattle.serde_json.specs.View.{view};
ghost use Rattle.st_file.specs.BodyJson.{body_json, frame_json, frames_json, object_json, phase_json, start_json};

use crate::listing::{ToJson, each, only};
use crate::texts::{class_text, selector_text};
use crate::values::{Table, value, values};
use st_classes::values::{Selector, Value};
use st_turn::body::{Body, Object, Outcome, Phase};
use st_turn::frame::FrameRef;
use st_turn::stack::Stack;
use st_wire::names::fault_name;
use st_wire::told::{Items, Members, Told};
use std::alloc::{AllocError, Global};

impl<'a> ToJson<Object> for Table<'a> {
    ghost json = { λ t o. object_json t.names.now t.version.now o };

    fn to_json(&self, alloc: Global, item: &Object) -> Result<Told, AllocError> {
        let mut members = Members::new(alloc);
        members.put(alloc, "class", class_text(alloc, self.version, item.class)?)?;
        members.put(alloc, "slots", values(alloc, *self, item.slots.as_slice())?)?;
        Ok(members.told())
    }
}

/// A frame.
fn frame(alloc: Global, table: Table<'_>, frame: &FrameRef<'_>) -> Result<Told, AllocError>
    ensures { IfOk result (λ told. view told ≡ frame_json table.entry.names.now table.entry.version.now frame.now) }
{
    let mut members = Members::new(alloc);
    members.put(alloc, "method", Told::whole(frame.method.0.into()))?;
    members.put(alloc, "operands", values(alloc, table, frame.operands)?)?;
    members.put(alloc, "pc", Told::whole(frame.pc.into()))?;
    members.put(
        alloc,
        "receiver",
        value(alloc, table.names, table.version, frame.receiver)?,
    )?;
    members.put(alloc, "temps", values(alloc, table, frame.temps)?)?;
    Ok(members.told())
}

/// The frames of a turn, from the first to the running one.
fn frames(alloc: Global, table: Table<'_>, stack: &Stack) -> Result<Told, AllocError>
    ensures { IfOk result (λ told. view told ≡ frames_json table.entry.names.now table.entry.version.now stack.now) }
{
    let mut items = Items::new(alloc);
    for place in 0..stack.waiting() {
        match stack.waiting_frame(place) {
            Some(waiting) => items.push(frame(alloc, table, &waiting)?)?,
            None => unreachable!(),
        }
    }
    items.push(frame(alloc, table, &stack.running_frame())?)?;
    Ok(items.told())
}

/// A turn that has begun and taken no step.
fn start(
    alloc: Global,
    table: Table<'_>,
    selector: Selector,
    args: &[Value],
) -> Result<Told, AllocError>
    ensures { IfOk result (λ told. view told ≡ start_json table.entry.names.now table.entry.version.now selector args.now) }
{
    let mut members = Members::new(alloc);
    members.put(alloc, "args", values(alloc, table, args)?)?;
    members.put(
        alloc,
        "selector",
        selector_text(alloc, table.names, selector)?,
    )?;
    only(alloc, "start", members.told())
}

/// Where a turn stands.
fn turn(alloc: Global, table: Table<'_>, phase: &Phase) -> Result<Told, AllocError>
    ensures { IfOk result (λ told. view told ≡ phase_json table.entry.names.now table.entry.version.now phase.now) }
{
    match phase {
        Phase::Fresh => Told::word(alloc, "fresh"),
        Phase::Start { selector, args } => start(alloc, table, *selector, args.as_slice()),
        Phase::Frames(stack) => only(alloc, "frames", frames(alloc, table, stack)?),
        Phase::Done(Outcome::Answer(answer)) => {
            only(
                alloc,
                "answer",
                value(alloc, table.names, table.version, *answer)?,
            )
        }
        Phase::Done(Outcome::Fault(fault)) => {
            only(alloc, "fault", Told::word(alloc, fault_name(*fault))?)
        }
    }
}

/// A body.
pub(crate) fn body(alloc: Global, table: Table<'_>, body: &Body) -> Result<Told, AllocError>
    ensures { IfOk result (λ told. view told ≡ body_json table.entry.names.now table.entry.version.now body.now) }
{
    let mut members = Members::new(alloc);
    members.put(
        alloc,
        "objects",
        each(alloc, &table, body.objects.as_slice())?,
    )?;
    members.put(alloc, "phase", turn(alloc, table, &body.phase)?)?;
    Ok(members.told())
}
