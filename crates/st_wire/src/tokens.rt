//! Parts of commands, read from the tokens of a line.
ghost use Rattle.std.specs.Prelude.{◌≡◌, ◌<◌, ◌≤◌, ◌^◌, ◌-◌, ℕ, length, Some, IfOk, OnOk};
ghost use Rattle.serde_json.specs.Data.{Data, Items, Members, string, array, object, no_members, member};
ghost use Rattle.st_wire.specs.Fields as spec;
ghost use Rattle.st_wire.specs.Fields.{each_of};
ghost use Rattle.st_wire.specs.Tokens.{BeginsWith, BeginsWithItems, BeginsWithMembers};

use crate::commands::Argument;
use crate::misses::Miss;
use crate::numerals::integer;
use crate::values::read_whole;
use json::{Reader, Token};
use st_classes::seq::Seq;
use st_classes::values::ActorId;
use std::alloc::Global;

/// Reads a text.
#[tactic(auto, using(crate::proofs::Fronts::string_first))]
pub(crate) fn read_text<'a>(reader: &mut Reader<'a>) -> Result<&'a str, Miss>
    ensures read { IfOk result (λ s. (depth : ℕ) → BeginsWith depth reader.old (string s.now) reader.new) }
    ensures shorter { OnOk result (length reader.new < length reader.old) }
{
    let Some(Token::String(text)) = reader.next() else {
        return Err(Miss::Undecided);
    };
    Ok(text)
}

/// A copy of a text.
pub(crate) fn copied(alloc: Global, text: &str) -> Result<Seq<u8>, Miss>
    ensures { IfOk result (λ copy. copy ≡ text.now) }
{
    let bytes = Vec::from_slice(alloc, text.as_bytes())?;
    Ok(Seq::from_vec(bytes))
}

/// The actor with a given number.
pub(crate) fn actor_of(number: u64) -> Result<ActorId, Miss>
    ensures { IfOk result (λ actor. (actor ≡ spec.actor number) × (number ≤ 2 ^ 32 - 1)) }
{
    if number > 4_294_967_295 {
        return Err(Miss::Undecided);
    }
    Ok(ActorId(number as u32))
}

/// The arguments of a post: an array.
pub(crate) fn read_arguments(alloc: Global, reader: &mut Reader<'_>) -> Result<Seq<Argument>, Miss>
    ensures read { IfOk result (λ args. (ds : Items) × BeginsWith 126 reader.old (array ds) reader.new × (each_of spec.argument ds ≡ Some args)) }
    ensures shorter { OnOk result (length reader.new < length reader.old) }
{
    let Some(Token::BeginArray) = reader.next() else {
        return Err(Miss::Undecided);
    };
    read_items(alloc, reader)
}

/// The arguments after an opening bracket.
fn read_items(alloc: Global, reader: &mut Reader<'_>) -> Result<Seq<Argument>, Miss>
    ensures read { IfOk result (λ args. (ds : Items) × BeginsWithItems 125 reader.old ds reader.new × (each_of spec.argument ds ≡ Some args)) }
    ensures shorter { OnOk result (length reader.new < length reader.old) }
{
    let mut found = Vec::new(alloc);
    'items: while !reader.take_end_array() {
        let one = read_argument(alloc, reader)?;
        found.push(one)?;
    }
    Ok(Seq::from_vec(found))
}

fn read_argument(alloc: Global, reader: &mut Reader<'_>) -> Result<Argument, Miss>
    ensures read { IfOk result (λ arg. (d : Data) × BeginsWith 125 reader.old d reader.new × (spec.argument d ≡ Some arg)) }
    ensures shorter { OnOk result (length reader.new < length reader.old) }
{
    match reader.next() {
        Some(Token::Number(text)) => match integer(text) {
            Some(number) => Ok(Argument::Int(number)),
            None => Err(Miss::Undecided),
        },
        Some(Token::Bool(truth)) => Ok(Argument::Bool(truth)),
        Some(Token::Null) => Ok(Argument::Nil),
        Some(Token::BeginObject) => read_named(alloc, reader),
        _ => Err(Miss::Undecided),
    }
}

/// An actor, a symbol or a class, after an opening brace.
fn read_named(alloc: Global, reader: &mut Reader<'_>) -> Result<Argument, Miss>
    ensures read { IfOk result (λ arg. (ms : Members) × BeginsWithMembers 124 reader.old ms reader.new × (spec.named (object ms) ≡ Some arg)) }
    ensures shorter { OnOk result (length reader.new < length reader.old) }
{
    let Some(key) = reader.next_key()? else {
        return Err(Miss::Undecided);
    };
    let named = read_name(alloc, reader, key)?;
    if reader.next_key()?.is_some() {
        return Err(Miss::Undecided);
    }
    Ok(named)
}

/// The argument that an object with this one key stands for.
fn read_name(alloc: Global, reader: &mut Reader<'_>, key: &str) -> Result<Argument, Miss>
    ensures read { IfOk result (λ arg. (d : Data) × BeginsWith 124 reader.old d reader.new
        × (spec.named (object (member key.now d no_members)) ≡ Some arg)) }
    ensures shorter { OnOk result (length reader.new < length reader.old) }
{
    match key {
        "ref" => {
            let number = read_whole(reader)?;
            Ok(Argument::Actor(actor_of(number)?))
        },
        "sym" => {
            let text = read_text(reader)?;
            Ok(Argument::Symbol(copied(alloc, text)?))
        },
        "class" => {
            let text = read_text(reader)?;
            Ok(Argument::Class(copied(alloc, text)?))
        },
        _ => Err(Miss::Undecided),
    }
}
