//! Reads what an image file says from a JSON value.
ghost use Rattle.std.specs.Prelude.{◌≡◌, IfOk, codes, option_map, option_and_then};
ghost use Rattle.serde_json.specs.Find.{as_bool};
ghost use Rattle.st_wire.specs.Fields as spec;
ghost use Rattle.st_file.specs.declared.texts.PhaseText.TheVariants as phase;
ghost use Rattle.serde_json.specs.View.{view};
ghost use Rattle.st_classes.specs.declared.refusals.ImagePlace.TheVariants.{Shape};
ghost use Rattle.st_image.specs.Counts.{CanBeCounted};
ghost use Rattle.st_file.specs.Answers.{Finds};
ghost use Rattle.st_file.specs.Shapes as shapes;

use crate::faults::fault_of;
use crate::fields::{
    Readable, SHAPE, actor_at, client_number, count, last_number, list_at, number_at, one_at,
    text_at, whole_at,
};
use crate::texts::{
    ActorText, BodyText, FrameText, ImageText, MessageText, ObjectText, PhaseText, ValueText,
    ValueTexts,
};
use serde_json::Value;
use st_classes::refusals::Refusal;
use st_image::counts::{Counts, MOST_COUNTED};
use st_image::edit_text::EditText;
use st_mailbox::messages::Sender;
use st_wire::keys::{has_just, size};
use std::alloc::Global;

/// Reads what a file says. A value of another form is refused as `BadImage` with the place `Shape`.
pub fn read_image(alloc: Global, value: &Value) -> Result<ImageText, Refusal>
    ensures read { Finds Shape (shapes.image_in (view value.now)) result }
    ensures counted { IfOk result (λ t. CanBeCounted t.counts) }
{
    let counts = counts(value)?;
    Ok(ImageText {
        actors: list_at(alloc, value, "actors")?,
        counts,
        edits: list_at(alloc, value, "edits")?,
        names: list_at(alloc, value, "names")?,
        senders: list_at(alloc, value, "senders")?,
    })
}

/// Reads the counts of a file, which must have exactly the keys of its format. A file of the first format counts no posts and no steps.
fn counts(value: &Value) -> Result<Counts, Refusal>
    ensures read { Finds Shape (shapes.counts_in (view value.now)) result }
    ensures few { IfOk result (λ c. CanBeCounted c) }
{
    let format = whole_at(value, "format", 1, 2)?;
    counts_of(value, format)
}

/// Reads the counts of a file of this format.
fn counts_of(value: &Value, format: u64) -> Result<Counts, Refusal>
    ensures read { Finds Shape (shapes.counts_by format (view value.now)) result }
    ensures few { IfOk result (λ c. CanBeCounted c) }
{
    if format == 1 {
        if !has_just(value, &["actors", "edits", "format", "names", "senders"]) {
            return Err(SHAPE);
        }
        return Ok(Counts { posts: 0, steps: 0 });
    }
    if !has_just(
        value,
        &[
            "actors", "edits", "format", "names", "posts", "senders", "steps",
        ],
    ) {
        return Err(SHAPE);
    }
    Ok(Counts {
        posts: whole_at(value, "posts", 0, MOST_COUNTED)?,
        steps: whole_at(value, "steps", 0, MOST_COUNTED)?,
    })
}

impl Readable for ValueText {
    ghost form = { shapes.value_in };

    fn read(alloc: Global, value: &Value) -> Result<ValueText, Refusal> {
        match value {
            Value::Null => Ok(ValueText::Nil),
            Value::Bool(truth) => Ok(ValueText::Bool(*truth)),
            Value::Number(number) => match number.as_i64() {
                Some(integer) => Ok(ValueText::Int(integer)),
                None => Err(SHAPE),
            },
            Value::String(_) | Value::Array(_) => Err(SHAPE),
            Value::Object(_) => named(alloc, value),
        }
    }
}

/// An actor, a symbol, a class or an object, as an object of one key.
fn named(alloc: Global, object: &Value) -> Result<ValueText, Refusal>
    ensures { Finds Shape (shapes.named_in (view object.now)) result }
{
    if size(object) != 1 {
        return Err(SHAPE);
    }
    if object.get("ref").is_some() {
        return Ok(ValueText::Actor(actor_at(object, "ref")?));
    }
    if object.get("sym").is_some() {
        return Ok(ValueText::Symbol(text_at(alloc, object, "sym")?));
    }
    if object.get("class").is_some() {
        return Ok(ValueText::Class(text_at(alloc, object, "class")?));
    }
    Ok(ValueText::Local(number_at(object, "local")?))
}

fn values_at(alloc: Global, object: &Value, key: &str) -> Result<ValueTexts, Refusal>
    ensures { Finds Shape (shapes.values_at key.now (view object.now)) result }
{
    list_at(alloc, object, key)
}

impl Readable for Sender {
    ghost form = { shapes.sender_in };

    fn read(_alloc: Global, value: &Value) -> Result<Sender, Refusal> {
        match value {
            Value::Number(number) => Ok(Sender::Client(client_number(number.as_u64())?)),
            Value::Object(_) => {
                if !has_just(value, &["ref"]) {
                    return Err(SHAPE);
                }
                Ok(Sender::Actor(actor_at(value, "ref")?))
            }
            _ => Err(SHAPE),
        }
    }
}

impl Readable for MessageText {
    ghost form = { shapes.message_in };

    fn read(alloc: Global, value: &Value) -> Result<MessageText, Refusal> {
        if !has_just(value, &["args", "selector", "sender", "seq"]) {
            return Err(SHAPE);
        }
        Ok(MessageText {
            args: values_at(alloc, value, "args")?,
            selector: text_at(alloc, value, "selector")?,
            sender: one_at(alloc, value, "sender")?,
            seq: number_at(value, "seq")?,
        })
    }
}

impl Readable for ObjectText {
    ghost form = { shapes.object_in };

    fn read(alloc: Global, value: &Value) -> Result<ObjectText, Refusal> {
        if !has_just(value, &["class", "slots"]) {
            return Err(SHAPE);
        }
        Ok(ObjectText {
            class: text_at(alloc, value, "class")?,
            slots: values_at(alloc, value, "slots")?,
        })
    }
}

impl Readable for FrameText {
    ghost form = { shapes.frame_in };

    fn read(alloc: Global, value: &Value) -> Result<FrameText, Refusal> {
        if !has_just(value, &["method", "operands", "pc", "receiver", "temps"]) {
            return Err(SHAPE);
        }
        Ok(FrameText {
            method: number_at(value, "method")?,
            operands: values_at(alloc, value, "operands")?,
            pc: number_at(value, "pc")?,
            receiver: one_at(alloc, value, "receiver")?,
            temps: values_at(alloc, value, "temps")?,
        })
    }
}

fn start(alloc: Global, value: &Value) -> Result<PhaseText, Refusal>
    ensures { Finds Shape (shapes.start_in (view value.now)) result }
{
    if !has_just(value, &["args", "selector"]) {
        return Err(SHAPE);
    }
    Ok(PhaseText::Start {
        args: values_at(alloc, value, "args")?,
        selector: text_at(alloc, value, "selector")?,
    })
}

fn fault(value: &Value) -> Result<PhaseText, Refusal>
    ensures { Finds Shape (option_map phase.Fault (option_and_then shapes.fault_of (spec.text_at (codes "fault") (view value.now)))) result }
{
    let Some(name) = value.get("fault").and_then(Value::as_str) else {
        return Err(SHAPE);
    };
    match fault_of(name) {
        Some(fault) => Ok(PhaseText::Fault(fault)),
        None => Err(SHAPE),
    }
}

fn turn(alloc: Global, value: &Value) -> Result<PhaseText, Refusal>
    ensures { Finds Shape (shapes.turn_in (view value.now)) result }
{
    if size(value) != 1 {
        return Err(SHAPE);
    }
    if let Some(start_value) = value.get("start") {
        return start(alloc, start_value);
    }
    if value.get("frames").is_some() {
        return Ok(PhaseText::Frames(list_at(alloc, value, "frames")?));
    }
    if let Some(answer) = value.get("answer") {
        return Ok(PhaseText::Answer(ValueText::read(alloc, answer)?));
    }
    fault(value)
}

impl Readable for PhaseText {
    ghost form = { shapes.phase_in };

    fn read(alloc: Global, value: &Value) -> Result<PhaseText, Refusal> {
        match value {
            Value::String(name) => {
                if name.as_str() == "fresh" {
                    Ok(PhaseText::Fresh)
                } else {
                    Err(SHAPE)
                }
            }
            Value::Object(_) => turn(alloc, value),
            _ => Err(SHAPE),
        }
    }
}

impl Readable for BodyText {
    ghost form = { shapes.body_in };

    fn read(alloc: Global, value: &Value) -> Result<BodyText, Refusal> {
        if !has_just(value, &["objects", "phase"]) {
            return Err(SHAPE);
        }
        Ok(BodyText {
            objects: list_at(alloc, value, "objects")?,
            phase: one_at(alloc, value, "phase")?,
        })
    }
}

impl Readable for bool {
    ghost form = { as_bool };

    fn read(_alloc: Global, value: &Value) -> Result<bool, Refusal> {
        match value.as_bool() {
            Some(truth) => Ok(truth),
            None => Err(SHAPE),
        }
    }
}

impl Readable for ActorText {
    ghost form = { shapes.actor_in };

    fn read(alloc: Global, value: &Value) -> Result<ActorText, Refusal> {
        if !has_just(
            value,
            &["body", "capacity", "class", "last", "open", "pending"],
        ) {
            return Err(SHAPE);
        }
        // The numbers come first and the body last. So little is let go where a part is refused, which keeps the proof short.
        Ok(ActorText {
            capacity: number_at(value, "capacity")?,
            last: number_at(value, "last")?,
            is_open: one_at(alloc, value, "open")?,
            class: text_at(alloc, value, "class")?,
            pending: list_at(alloc, value, "pending")?,
            body: one_at(alloc, value, "body")?,
        })
    }
}

fn define(alloc: Global, value: &Value) -> Result<EditText, Refusal>
    ensures { Finds Shape (shapes.define_in (view value.now)) result }
{
    if !has_just(value, &["name", "slots", "super"]) {
        return Err(SHAPE);
    }
    Ok(EditText::Define {
        name: text_at(alloc, value, "name")?,
        slots: list_at(alloc, value, "slots")?,
        parent: text_at(alloc, value, "super")?,
    })
}

fn install(alloc: Global, value: &Value) -> Result<EditText, Refusal>
    ensures { Finds Shape (shapes.install_in (view value.now)) result }
{
    if !has_just(value, &["class", "source"]) {
        return Err(SHAPE);
    }
    Ok(EditText::Install {
        class: text_at(alloc, value, "class")?,
        source: text_at(alloc, value, "source")?,
    })
}

fn remove(alloc: Global, value: &Value) -> Result<EditText, Refusal>
    ensures { Finds Shape (shapes.remove_in (view value.now)) result }
{
    if !has_just(value, &["class", "selector"]) {
        return Err(SHAPE);
    }
    Ok(EditText::Remove {
        class: text_at(alloc, value, "class")?,
        selector: text_at(alloc, value, "selector")?,
    })
}

fn reparent(alloc: Global, value: &Value) -> Result<EditText, Refusal>
    ensures { Finds Shape (shapes.reparent_in (view value.now)) result }
{
    if !has_just(value, &["class", "super"]) {
        return Err(SHAPE);
    }
    Ok(EditText::Reparent {
        class: text_at(alloc, value, "class")?,
        parent: text_at(alloc, value, "super")?,
    })
}

impl Readable for EditText {
    ghost form = { shapes.edit_in };

    fn read(alloc: Global, value: &Value) -> Result<EditText, Refusal> {
        if size(value) != 1 {
            return Err(SHAPE);
        }
        if let Some(edit) = value.get("define") {
            return define(alloc, edit);
        }
        if let Some(edit) = value.get("install") {
            return install(alloc, edit);
        }
        if let Some(edit) = value.get("remove") {
            return remove(alloc, edit);
        }
        match value.get("reparent") {
            Some(edit) => reparent(alloc, edit),
            None => Err(SHAPE),
        }
    }
}

impl Readable for (u16, u64) {
    ghost form = { shapes.client_in };

    fn read(_alloc: Global, value: &Value) -> Result<(u16, u64), Refusal> {
        if count(value) != 2 {
            return Err(SHAPE);
        }
        let client = client_number(value.get(0usize).and_then(Value::as_u64))?;
        let last = last_number(value.get(1usize).and_then(Value::as_u64))?;
        Ok((client, last))
    }
}
