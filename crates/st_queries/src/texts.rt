//! Names in answers.
ghost use Rattle.std.specs.Prelude.{◌≡◌, IfOk, All, drop};
ghost use Rattle.std.specs.Str.{is_utf8};
ghost use Rattle.serde_json.specs.Data.{string};
ghost use Rattle.serde_json.specs.View.{view};
ghost use Rattle.st_classes.specs.Classes.{is_class};
ghost use Rattle.st_image.specs.Loading as spec;
ghost use Rattle.st_file.specs.Tellable.{IsText};
ghost use Rattle.st_file.specs.ListJson as lists;

use st_classes::names::Names;
use st_classes::seq::Seq;
use st_classes::values::{ClassId, Selector};
use st_classes::version::Version;
use st_wire::told::{Items, Told};
use std::alloc::{AllocError, Global};

/// The name of a class. It is empty if no class has this number.
#[tactic(auto, using(st_file::proofs::TableTexts::class_is_text, st_file::proofs::TableTexts::empty_is_text))]
pub(crate) fn class_text(
    alloc: Global,
    version: &Version,
    class: ClassId,
) -> Result<Told, AllocError>
    ensures { IfOk result (λ told. view told ≡ string (spec.class_text version.now class)) }
{
    version.known();
    match version.class_name(class) {
        Some(name) => Told::text(alloc, name),
        None => Told::text(alloc, b""),
    }
}

/// The text of a selector. It is empty if no name has this number.
#[tactic(auto, using(st_file::proofs::AsciiNames::selector_is_text, st_file::proofs::TableTexts::empty_is_text))]
pub(crate) fn selector_text(
    alloc: Global,
    names: &Names,
    selector: Selector,
) -> Result<Told, AllocError>
    ensures { IfOk result (λ told. view told ≡ string (spec.selector_text names.now selector)) }
{
    if u32::from(selector.0) < names.len() {
        Told::text(alloc, names.text(selector))
    } else {
        Told::text(alloc, b"")
    }
}

/// The list of these texts, but for the first ones.
pub(crate) fn texts(alloc: Global, list: &[Seq<u8>], first: usize) -> Result<Told, AllocError>
    requires { All IsText list.now }
    ensures { IfOk result (λ told. view told ≡ lists.texts (drop first list.now)) }
{
    let mut items = Items::new(alloc);
    for place in first..list.len() {
        items.push(Told::text(alloc, list[place].as_slice())?)?;
    }
    Ok(items.told())
}
