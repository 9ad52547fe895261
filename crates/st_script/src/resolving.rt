//! From the texts of a command to values, and back.
ghost use Rattle.std.specs.Prelude.{◌≡◌, [], IfOk, OnErr, slice_get, true, unwrap_or};
ghost use Rattle.std.specs.Str.{IsAscii};
ghost use Rattle.st_classes.specs.Classes.{class_name};
ghost use Rattle.st_image.specs.Images.{world};
ghost use Rattle.st_script.specs.ArgumentValues.{found_selector, is_told_by_text, value_text as shown_as};

use crate::images::Image;
use st_classes::names::Names;
use st_classes::refusals::Refusal;
use st_classes::selectors::arity_of;
use st_classes::values::{ClassId, Selector, Value};
use st_wire::replies::Answered;
use st_wire::text::Text;
use std::alloc::{AllocError, Global};

/// The number of a selector's text. The text is not interned.
///
/// `BadName` says that the text is not a selector. `NoSuchMethod` says that it was never interned, so no class has a method for it.
pub fn find_selector(names: &Names, text: &[u8]) -> Result<Selector, Refusal>
    ensures { result ≡ found_selector names.now text.now }
{
    if arity_of(text).is_none() {
        return Err(Refusal::BadName);
    }
    names.find(text).ok_or(Refusal::NoSuchMethod)
}

/// Copies a name into a text.
#[tactic(auto, using(crate::proofs::Names::utf8_from_ascii))]
pub(crate) fn text_of(alloc: Global, name: &[u8]) -> Result<Text, AllocError>
    requires { IsAscii name.now }
    ensures { IfOk result (λ text. text ≡ name.now) }
{
    match str::from_utf8(name) {
        Ok(name) => Text::new(alloc, name),
        Err(_) => unreachable!(),
    }
}

/// The text of a selector. It is empty if the table has no such selector.
#[tactic(auto, using(crate::proofs::Names::selector_ascii))]
pub(crate) fn selector_text(image: &Image, selector: Selector) -> &[u8]
    ensures ascii { IsAscii result.now }
    ensures text { result.now ≡ unwrap_or (slice_get image.now.names selector.0) [] }
{
    let names = image.names();
    if u32::from(selector.0) < names.len() {
        names.text(selector)
    } else {
        b""
    }
}

/// The name of a class. It is empty if there is no such class.
fn class_text(image: &Image, class: ClassId) -> &[u8]
    ensures ascii { IsAscii result.now }
    ensures text { result.now ≡ unwrap_or (class_name (world image.now).edits class) [] }
{
    let version = image.version();
    version.known();
    match version.class_name(class) {
        Some(name) => name,
        None => b"",
    }
}

/// A value with its names as texts. Memory can run out only when a symbol or a class is copied.
pub fn shown(alloc: Global, image: &Image, value: Value) -> Result<Answered, AllocError>
    ensures told { IfOk result (λ texts. texts ≡ shown_as image.now value) }
    ensures memory { OnErr result (is_told_by_text value ≡ true) }
{
    Ok(match value {
        Value::Int(n) => Answered::Int(n),
        Value::Bool(b) => Answered::Bool(b),
        Value::Nil => Answered::Nil,
        Value::Sym(selector) => Answered::Symbol(text_of(alloc, selector_text(image, selector))?),
        Value::Class(class) => Answered::Class(text_of(alloc, class_text(image, class))?),
        Value::Actor(actor) => Answered::Actor(actor),
        Value::Local(place) => Answered::Local(place),
    })
}
