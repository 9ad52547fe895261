//! The parts of a JSON value.
ghost use Rattle.std.specs.Prelude.{◌≡◌, ◌≤◌, IfOk};
ghost use Rattle.serde_json.specs.View.{view, items_view};
ghost use Rattle.st_wire.specs.Fields as spec;
ghost use Rattle.st_classes.specs.declared.refusals.ImagePlace.TheVariants.{Shape};
ghost use Rattle.st_file.specs.Answers.{Finds};
ghost use Rattle.st_file.specs.Shapes as shapes;

use serde_json::Value;
use st_classes::refusals::{ImagePlace, Refusal};
use st_classes::seq::Seq;
use st_classes::values::ActorId;
use std::alloc::Global;

/// The refusal of a value that does not have the form of an image file.
pub const SHAPE: Refusal = Refusal::BadImage {
    place: ImagePlace::Shape,
};

/// A type that can be read from a JSON value.
pub trait Readable: Drop {
    ghost use Rattle.std.specs.Prelude.{Option};
    ghost use Rattle.serde_json.specs.Data.{Data};

    /// The value that is read, if the JSON value has the right form.
    ghost form: { Data → Option Self };

    /// Reads a value.
    fn read(alloc: Global, value: &Value) -> Result<Self, Refusal>
        ensures { Finds Shape (form (view value.now)) result };
}

impl Readable for Seq<u8> {
    ghost form = { spec.text };

    fn read(alloc: Global, value: &Value) -> Result<Seq<u8>, Refusal> {
        let Some(text) = value.as_str() else {
            return Err(SHAPE);
        };
        let bytes = Vec::from_slice(alloc, text.as_bytes())?;
        Ok(Seq::from_vec(bytes))
    }
}

fn each<T: Readable>(alloc: Global, values: &Vec<Value>) -> Result<Seq<T>, Refusal>
    ensures { Finds Shape (spec.each_of T.form (items_view values.now.items)) result }
{
    let mut found = Vec::new(alloc);
    for value in values {
        let one = T::read(alloc, value)?;
        if found.push(one).is_err() {
            return Err(Refusal::NoMemory);
        }
    }
    Ok(Seq::from_vec(found))
}

/// Reads each item of the array at a key.
pub fn list_at<T: Readable>(alloc: Global, object: &Value, key: &str) -> Result<Seq<T>, Refusal>
    ensures { Finds Shape (shapes.list_at T.form key.now (view object.now)) result }
{
    match object.get(key).and_then(Value::as_array) {
        Some(values) => each(alloc, values),
        None => Err(SHAPE),
    }
}

/// Reads the value at a key.
pub fn one_at<T: Readable>(alloc: Global, object: &Value, key: &str) -> Result<T, Refusal>
    ensures { Finds Shape (shapes.one_at T.form key.now (view object.now)) result }
{
    match object.get(key) {
        Some(value) => T::read(alloc, value),
        None => Err(SHAPE),
    }
}

/// Reads the text at a key.
pub fn text_at(alloc: Global, object: &Value, key: &str) -> Result<Seq<u8>, Refusal>
    ensures { Finds Shape (spec.text_at key.now (view object.now)) result }
{
    one_at(alloc, object, key)
}

/// The number of items of an array; 0 for any other value.
pub fn count(array: &Value) -> usize
    ensures { result ≡ shapes.count (view array.now) }
{
    match array.as_array() {
        Some(items) => items.len(),
        None => 0,
    }
}

/// Checks that a number is in a range, both ends included.
pub fn within(number: Option<u64>, least: u64, most: u64) -> Result<u64, Refusal>
    ensures read { Finds Shape (spec.within least most number) result }
    ensures within { IfOk result (λ n. n ≤ most) }
{
    match number {
        Some(n) if least <= n && n <= most => Ok(n),
        _ => Err(SHAPE),
    }
}

/// Reads the whole number at a key, which must be in a range, both ends included.
pub fn whole_at(object: &Value, key: &str, least: u64, most: u64) -> Result<u64, Refusal>
    ensures read { Finds Shape (spec.whole_at key.now least most (view object.now)) result }
    ensures within { IfOk result (λ n. n ≤ most) }
{
    within(object.get(key).and_then(Value::as_u64), least, most)
}

/// Reads the unsigned 64-bit number at a key.
pub fn number_at(object: &Value, key: &str) -> Result<u64, Refusal>
    ensures { Finds Shape (spec.number_at key.now (view object.now)) result }
{
    whole_at(object, key, 0, u64::MAX)
}

/// Reads the actor's number at a key.
pub fn actor_at(object: &Value, key: &str) -> Result<ActorId, Refusal>
    ensures { Finds Shape (spec.actor_at key.now (view object.now)) result }
{
    let number = whole_at(object, key, 0, 4_294_967_295)?;
    Ok(ActorId(number as u32))
}

/// Checks a client's number, which has 16 bits.
pub fn client_number(number: Option<u64>) -> Result<u16, Refusal>
    ensures { Finds Shape (spec.within 0 65535 number) result }
{
    let number = within(number, 0, 65_535)?;
    Ok(number as u16)
}

/// Checks the number of a client's last message, which is at least 1.
pub fn last_number(number: Option<u64>) -> Result<u64, Refusal>
    ensures { Finds Shape (spec.within 1 18446744073709551615 number) result }
{
    within(number, 1, u64::MAX)
}
