//! The fields of a command's object.
ghost use Rattle.std.specs.Prelude.{◌≡◌, ◌≤◌, IfOk, IfSome, OnOk, OnErr, Option, Some, None, is_some, option_map, nat_eq, if◌then◌else◌};
ghost use Rattle.serde_json.specs.View.{view, items_view};
ghost use Rattle.st_classes.specs.declared.refusals.Refusal.TheVariants.{BadCommand};
ghost use Rattle.st_wire.specs.PartResults.{Reads};
ghost use Rattle.st_wire.specs.Fields as spec;

use crate::commands::Argument;
use crate::keys::size;
use serde_json::Value;
use st_classes::refusals::Refusal;
use st_classes::seq::Seq;
use st_classes::values::ActorId;
use std::alloc::Global;

/// A type that can be read from a JSON value.
pub(crate) trait Readable: Drop {
    ghost use Rattle.std.specs.Prelude.{Option};
    ghost use Rattle.serde_json.specs.Data.{Data};

    /// The value that is read, if the JSON value has the right form.
    ghost form: { Data → Option Self };

    /// Reads a value.
    fn read(alloc: Global, value: &Value) -> Result<Self, Refusal>
        ensures { Reads (form (view value.now)) result };
}

impl Readable for Seq<u8> {
    ghost form = { spec.text };

    fn read(alloc: Global, value: &Value) -> Result<Seq<u8>, Refusal> {
        let Some(text) = value.as_str() else {
            return Err(Refusal::BadCommand);
        };
        let bytes = Vec::from_slice(alloc, text.as_bytes())?;
        Ok(Seq::from_vec(bytes))
    }
}

impl Readable for Argument {
    ghost form = { spec.argument };

    fn read(alloc: Global, value: &Value) -> Result<Argument, Refusal> {
        match value {
            Value::Null => Ok(Argument::Nil),
            Value::Bool(truth) => Ok(Argument::Bool(*truth)),
            Value::Number(number) => match number.as_i64() {
                Some(integer) => Ok(Argument::Int(integer)),
                None => Err(Refusal::BadCommand),
            },
            Value::String(_) | Value::Array(_) => Err(Refusal::BadCommand),
            Value::Object(_) => named(alloc, value),
        }
    }
}

fn each<T: Readable>(alloc: Global, values: &Vec<Value>) -> Result<Seq<T>, Refusal>
    ensures { Reads (spec.each_of T.form (items_view values.now.items)) result }
{
    let mut found = Vec::new(alloc);
    for value in values {
        let one = T::read(alloc, value)?;
        if found.push(one).is_err() {
            return Err(Refusal::NoMemory);
        }
    }
    Ok(Seq::from_vec(found))
}

/// The text at a key.
pub(crate) fn text_at(alloc: Global, object: &Value, key: &str) -> Result<Seq<u8>, Refusal>
    ensures { Reads (spec.text_at key.now (view object.now)) result }
{
    match object.get(key) {
        Some(value) => Seq::read(alloc, value),
        None => Err(Refusal::BadCommand),
    }
}

/// The items of the array at a key.
pub(crate) fn list_at<T: Readable>(
    alloc: Global,
    object: &Value,
    key: &str,
) -> Result<Seq<T>, Refusal>
    ensures { Reads (spec.list_at T.form key.now (view object.now)) result }
{
    match object.get(key).and_then(Value::as_array) {
        Some(values) => each(alloc, values),
        None => Err(Refusal::BadCommand),
    }
}

/// The whole number at a key, from `least` to `most`, both included.
pub(crate) fn whole_at(object: &Value, key: &str, least: u64, most: u64) -> Result<u64, Refusal>
    ensures read { Reads (spec.whole_at key.now least most (view object.now)) result }
    ensures within { IfOk result (λ n. n ≤ most) }
{
    match object.get(key).and_then(Value::as_u64) {
        Some(n) if least <= n && n <= most => Ok(n),
        _ => Err(Refusal::BadCommand),
    }
}

/// The number of an actor at a key.
pub(crate) fn actor_at(object: &Value, key: &str) -> Result<ActorId, Refusal>
    ensures { Reads (spec.actor_at key.now (view object.now)) result }
{
    let number = whole_at(object, key, 0, 4_294_967_295)?;
    Ok(ActorId(number as u32))
}

/// The number of a client at a key, at most 65,535.
pub(crate) fn sender_at(object: &Value, key: &str) -> Result<u16, Refusal>
    ensures { Reads (spec.sender_at key.now (view object.now)) result }
{
    let number = whole_at(object, key, 0, 65_535)?;
    Ok(number as u16)
}

/// The number of quanta at a key, from 1 to 1,000,000.
pub(crate) fn quanta_at(object: &Value, key: &str) -> Result<u32, Refusal>
    ensures { Reads (spec.quanta_at key.now (view object.now)) result }
{
    let number = whole_at(object, key, 1, 1_000_000)?;
    Ok(number as u32)
}

/// An actor, a symbol or a class: an object with one key.
fn named(alloc: Global, object: &Value) -> Result<Argument, Refusal>
    ensures { Reads (spec.named (view object.now)) result }
{
    if size(object) != 1 {
        return Err(Refusal::BadCommand);
    }
    if object.get("ref").is_some() {
        return Ok(Argument::Actor(actor_at(object, "ref")?));
    }
    if object.get("sym").is_some() {
        return Ok(Argument::Symbol(text_at(alloc, object, "sym")?));
    }
    Ok(Argument::Class(text_at(alloc, object, "class")?))
}
