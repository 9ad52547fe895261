//! Reads entries from JSON values.
ghost use Rattle.serde_json.specs.View.{view};
ghost use Rattle.st_classes.specs.declared.refusals.ImagePlace.TheVariants.{Shape};
ghost use Rattle.st_file.specs.Answers.{Finds};
ghost use Rattle.st_journal.specs.EntryMeanings.{ReadsEntry};
ghost use Rattle.st_journal.specs.EntryShapes as shapes;

use crate::entries::Entry;
use crate::texts::EntryText;
use serde_json::Value;
use st_classes::names::Names;
use st_classes::refusals::Refusal;
use st_classes::seq::Seq;
use st_classes::values::ActorId;
use st_classes::version::Version;
use st_file::fields::{
    Readable, SHAPE, actor_at, count, list_at, number_at, one_at, text_at, within,
};
use st_file::resolving::Resolve;
use st_file::texts::MessageText;
use st_image::edit_text::EditText;
use st_wire::keys::{has_just, size};
use std::alloc::Global;

/// The entry that a JSON value tells, by the names and the class table of an image.
///
/// A value of another form is refused as `BadImage` with the place `Shape`, and one with a class or a selector that is not there as
/// `BadImage` with the place `Actors`. The only other refusal is `NoMemory`.
pub fn read_entry(
    alloc: Global,
    names: &Names,
    version: &Version,
    value: &Value,
) -> Result<Entry, Refusal>
    ensures { ReadsEntry names.now version.now (view value.now) result }
{
    match EntryText::read(alloc, value) {
        Ok(text) => text.resolve(alloc, names, version),
        Err(refusal) => Err(refusal),
    }
}

impl Readable for EntryText {
    ghost form = { shapes.entry_in };

    fn read(alloc: Global, value: &Value) -> Result<EntryText, Refusal> {
        if size(value) != 1 {
            return Err(SHAPE);
        }
        if let Some(text) = value.get("name") {
            return name(alloc, text);
        }
        if let Some(edit) = value.get("edit") {
            return edited(alloc, edit);
        }
        if let Some(class) = value.get("actor") {
            return created(alloc, class);
        }
        if let Some(post) = value.get("post") {
            return posted(alloc, post);
        }
        turn(value)
    }
}

/// A name.
fn name(alloc: Global, value: &Value) -> Result<EntryText, Refusal>
    ensures { Finds Shape (shapes.name_in (view value.now)) result }
{
    Ok(EntryText::Name(Seq::<u8>::read(alloc, value)?))
}

/// An edit.
fn edited(alloc: Global, value: &Value) -> Result<EntryText, Refusal>
    ensures { Finds Shape (shapes.edited_in (view value.now)) result }
{
    Ok(EntryText::Edited(EditText::read(alloc, value)?))
}

/// The name of an actor's class.
fn created(alloc: Global, value: &Value) -> Result<EntryText, Refusal>
    ensures { Finds Shape (shapes.created_in (view value.now)) result }
{
    Ok(EntryText::Created(Seq::<u8>::read(alloc, value)?))
}

/// A message, and the actor to which it was posted.
fn posted(alloc: Global, value: &Value) -> Result<EntryText, Refusal>
    ensures { Finds Shape (shapes.posted_in (view value.now)) result }
{
    if !has_just(value, &["actor", "args", "selector", "sender", "seq"]) {
        return Err(SHAPE);
    }
    Ok(EntryText::Posted {
        actor: actor_at(value, "actor")?,
        message: message(alloc, value)?,
    })
}

/// The message of an object that has its members and others.
fn message(alloc: Global, value: &Value) -> Result<MessageText, Refusal>
    ensures { Finds Shape (shapes.message_of (view value.now)) result }
{
    Ok(MessageText {
        args: list_at(alloc, value, "args")?,
        selector: text_at(alloc, value, "selector")?,
        sender: one_at(alloc, value, "sender")?,
        seq: number_at(value, "seq")?,
    })
}

/// An entry of a turn, or of the whole image.
fn turn(value: &Value) -> Result<EntryText, Refusal>
    ensures { Finds Shape (shapes.turn_by (view value.now)) result }
{
    if let Some(actor) = value.get("close") {
        return closed(actor);
    }
    if let Some(actor) = value.get("begun") {
        return begun(actor);
    }
    if let Some(steps) = value.get("ran") {
        return ran(steps);
    }
    match value.get("checkpoint") {
        Some(nothing) => checkpoint(nothing),
        None => Err(SHAPE),
    }
}

/// The number of an actor.
fn actor_number(value: &Value) -> Result<ActorId, Refusal>
    ensures { Finds Shape (shapes.actor_number (view value.now)) result }
{
    let number = within(value.as_u64(), 0, 4_294_967_295)?;
    Ok(ActorId(number as u32))
}

fn closed(value: &Value) -> Result<EntryText, Refusal>
    ensures { Finds Shape (shapes.closed_in (view value.now)) result }
{
    Ok(EntryText::Closed(actor_number(value)?))
}

fn begun(value: &Value) -> Result<EntryText, Refusal>
    ensures { Finds Shape (shapes.begun_in (view value.now)) result }
{
    Ok(EntryText::Begun(actor_number(value)?))
}

/// An actor and the steps of one commit.
fn ran(value: &Value) -> Result<EntryText, Refusal>
    ensures { Finds Shape (shapes.ran_in (view value.now)) result }
{
    if count(value) != 2 {
        return Err(SHAPE);
    }
    let actor = within(value.get(0usize).and_then(Value::as_u64), 0, 4_294_967_295)?;
    let steps = within(value.get(1usize).and_then(Value::as_u64), 1, 4_294_967_295)?;
    Ok(EntryText::Ran {
        actor: ActorId(actor as u32),
        steps: steps as u32,
    })
}

fn checkpoint(value: &Value) -> Result<EntryText, Refusal>
    ensures { Finds Shape (shapes.checkpoint_in (view value.now)) result }
{
    match value {
        Value::Object(_) => {
            if size(value) != 0 {
                return Err(SHAPE);
            }
            Ok(EntryText::Checkpoint)
        }
        _ => Err(SHAPE),
    }
}
