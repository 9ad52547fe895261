//! JSON values, read from the tokens of a text.
ghost use Rattle.std.specs.Prelude.{◌≡◌, ◌<◌, ℕ, length, Some, IfOk, IfSome, OnOk};
ghost use Rattle.serde_json.specs.Data.{Num, number, unsigned};
ghost use Rattle.serde_json.specs.Read.{number_of};
ghost use Rattle.serde_json.specs.View.{view, items_view, members_view};
ghost use Rattle.st_wire.specs.Tokens.{BeginsWith, BeginsWithItems, BeginsWithMembers};

use crate::misses::Miss;
use crate::numerals::{below_zero, whole};
use json::{Reader, Token};
use serde_json::{Map, Value};
use std::alloc::Global;

/// Reads a whole number.
#[tactic(auto, using(crate::proofs::Fronts::number_first))]
pub fn read_whole(reader: &mut Reader<'_>) -> Result<u64, Miss>
    ensures read { IfOk result (λ n. (depth : ℕ) → BeginsWith depth reader.old (number (unsigned n)) reader.new) }
    ensures shorter { OnOk result (length reader.new < length reader.old) }
{
    let Some(Token::Number(text)) = reader.next() else {
        return Err(Miss::Undecided);
    };
    match whole(text) {
        Some(number) => Ok(number),
        None => Err(Miss::Undecided),
    }
}

/// The value of a number's text, if it is an integer of 64 bits.
fn number_value(text: &str) -> Option<Value>
    ensures { IfSome result (λ v. (n : Num) × (number_of text.now ≡ Some n) × (view v ≡ number n)) }
{
    if let Some(number) = whole(text) {
        return Some(Value::from(number));
    }
    match below_zero(text) {
        Some(number) => Some(Value::from(number)),
        None => None,
    }
}

/// Reads a value, in which arrays and objects nest at most this deep. It is left undecided where it has a number that is no integer of
/// 64 bits.
#[cycle(read)]
pub fn read_value(alloc: Global, reader: &mut Reader<'_>, depth: usize) -> Result<Value, Miss>
    ensures read { IfOk result (λ v. BeginsWith depth reader.old (view v) reader.new) }
    ensures shorter { OnOk result (length reader.new < length reader.old) }
{
    match reader.next() {
        Some(Token::String(text)) => Ok(Value::String(String::from_str(alloc, text)?)),
        Some(Token::Number(text)) => match number_value(text) {
            Some(value) => Ok(value),
            None => Err(Miss::Undecided),
        },
        Some(Token::Bool(truth)) => Ok(Value::Bool(truth)),
        Some(Token::Null) => Ok(Value::Null),
        Some(Token::BeginArray) if depth > 0 => {
            Ok(Value::Array(read_items(alloc, reader, depth - 1)?))
        }
        Some(Token::BeginObject) if depth > 0 => {
            Ok(Value::Object(read_members(alloc, reader, depth - 1)?))
        }
        _ => Err(Miss::Undecided),
    }
}

/// Reads the items of an array, after its opening bracket.
#[cycle(read)]
fn read_items(alloc: Global, reader: &mut Reader<'_>, depth: usize) -> Result<Vec<Value>, Miss>
    ensures read { IfOk result (λ vs. BeginsWithItems depth reader.old (items_view vs.items) reader.new) }
    ensures shorter { OnOk result (length reader.new < length reader.old) }
{
    let mut found = Vec::new(alloc);
    'items: while !reader.take_end_array() {
        let one = read_value(alloc, reader, depth)?;
        found.push(one)?;
    }
    Ok(found)
}

/// Reads the members of an object, after its opening brace. Of a key that comes twice the last value stays.
#[cycle(read)]
fn read_members(
    alloc: Global,
    reader: &mut Reader<'_>,
    depth: usize,
) -> Result<Map<String, Value>, Miss>
    ensures read { IfOk result (λ m. BeginsWithMembers depth reader.old (members_view m.entries) reader.new) }
    ensures shorter { OnOk result (length reader.new < length reader.old) }
{
    let mut found = Map::new(alloc);
    'members: while let Some(name) = reader.next_key()? {
        let key = String::from_str(alloc, name)?;
        let member = read_value(alloc, reader, depth)?;
        drop(found.insert(key, member)?);
    }
    Ok(found)
}
