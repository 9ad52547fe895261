//! From the texts of a query to numbers. Nothing is interned.
ghost use Rattle.std.specs.Prelude.{◌≡◌};
ghost use Rattle.st_queries.specs.Resolving.{class_in, selector_in};

use st_classes::names::Names;
use st_classes::refusals::Refusal;
use st_classes::selectors::arity_of;
use st_classes::values::{ClassId, Selector};
use st_classes::version::Version;

/// The class that a text names. `UnknownClass` says that there is none.
pub(crate) fn class_of(version: &Version, text: &[u8]) -> Result<ClassId, Refusal>
    ensures { result ≡ class_in version.now text.now }
{
    version.class_named(text).ok_or(Refusal::UnknownClass)
}

/// The selector that a text names. `BadName` says that the text is none. One that was never interned gets the number after the last
/// name's, for which no class has a method.
pub(crate) fn selector_of(names: &Names, text: &[u8]) -> Result<Selector, Refusal>
    ensures { result ≡ selector_in names.now text.now }
{
    if arity_of(text).is_none() {
        return Err(Refusal::BadName);
    }
    names.known();
    match names.find(text) {
        Some(selector) => Ok(selector),
        None => Ok(Selector(names.len() as u16)),
    }
}
