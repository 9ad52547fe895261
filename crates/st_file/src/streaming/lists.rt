//! Reads arrays from the tokens of a text, item by item.
ghost use Rattle.std.specs.Prelude.{◌≡◌, ◌<◌, length, Some, IfOk, OnOk};
ghost use Rattle.serde_json.specs.Data.{Data, Items, array};
ghost use Rattle.st_wire.specs.Fields.{each_of};
ghost use Rattle.st_wire.specs.Tokens.{BeginsWith, BeginsWithItems};

use crate::fields::Readable;
use json::{Reader, Token};
use serde_json::Value;
use st_classes::refusals::Refusal;
use st_classes::seq::Seq;
use st_image::dropping::let_go;
use st_wire::misses::Miss;
use st_wire::values::read_value;
use std::alloc::Global;

/// What is made of the items of an array.
pub(crate) trait Makes<T: Drop> {
    ghost use Rattle.std.specs.Prelude.{◌≡◌, IfOk, Option, Some};
    ghost use Rattle.serde_json.specs.Data.{Data};
    ghost use Rattle.serde_json.specs.View.{view};

    /// What is made of a JSON value, if it has the right form.
    ghost form: { Self → Data → Option T };

    /// Makes it.
    fn make(&self, alloc: Global, value: &Value) -> Result<T, Refusal>
        ensures { IfOk result (λ x. form self.now (view value.now) ≡ Some x) };
}

/// What a file says, as texts.
pub(crate) struct Texts;

impl<T: Readable> Makes<T> for Texts {
    ghost form = { λ by. T.form };

    fn make(&self, alloc: Global, value: &Value) -> Result<T, Refusal> {
        T::read(alloc, value)
    }
}

/// Reads an array.
pub(crate) fn list<T: Drop, B: Makes<T>>(
    alloc: Global,
    reader: &mut Reader<'_>,
    by: &B,
) -> Result<Seq<T>, Miss>
    ensures read { IfOk result (λ xs. (ds : Items) × BeginsWith 126 reader.old (array ds) reader.new × (each_of (B.form by.now) ds ≡ Some xs)) }
    ensures shorter { OnOk result (length reader.new < length reader.old) }
{
    let Some(Token::BeginArray) = reader.next() else {
        return Err(Miss::Undecided);
    };
    items(alloc, reader, by)
}

/// Reads an item.
fn item<T: Drop, B: Makes<T>>(alloc: Global, reader: &mut Reader<'_>, by: &B) -> Result<T, Miss>
    ensures read { IfOk result (λ x. (d : Data) × BeginsWith 125 reader.old d reader.new × (B.form by.now d ≡ Some x)) }
    ensures shorter { OnOk result (length reader.new < length reader.old) }
{
    let value = read_value(alloc, reader, 125)?;
    let made = by.make(alloc, &value);
    Ok(let_go(value, made)?)
}

/// Reads the items of an array, after its opening bracket.
fn items<T: Drop, B: Makes<T>>(
    alloc: Global,
    reader: &mut Reader<'_>,
    by: &B,
) -> Result<Seq<T>, Miss>
    ensures read { IfOk result (λ xs. (ds : Items) × BeginsWithItems 125 reader.old ds reader.new × (each_of (B.form by.now) ds ≡ Some xs)) }
    ensures shorter { OnOk result (length reader.new < length reader.old) }
{
    let mut found = Vec::new(alloc);
    'items: while !reader.take_end_array() {
        let one = item(alloc, reader, by)?;
        found.push(one)?;
    }
    Ok(Seq::from_vec(found))
}
