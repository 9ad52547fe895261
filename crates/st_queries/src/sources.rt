//! The source of what a send to an instance of a class runs.
ghost use Rattle.std.specs.Prelude.{◌≡◌, true, IfOk};
ghost use Rattle.serde_json.specs.Data.{string};
ghost use Rattle.serde_json.specs.View.{view};
ghost use Rattle.st_classes.specs.Classes.{chain, is_class};
ghost use Rattle.st_image.specs.CompiledEdits.{AllCompiled};
ghost use Rattle.st_queries.specs.Answers.{IsAnswer, holder_in, source_of, source_told};
ghost use Rattle.st_queries.specs.Sources.{source_at as source_in};

use crate::methods::version_of;
use crate::own_methods::own;
use crate::texts::class_text;
use st_classes::kernel::Found;
use st_classes::names::Names;
use st_classes::refusals::Refusal;
use st_classes::values::{ClassId, MethodId, Selector};
use st_classes::version::Version;
use st_wire::told::{Members, Told};
use std::alloc::{AllocError, Global};

/// The source of the method at a place. It is empty if nothing was installed there.
#[tactic(auto, using(st_file::proofs::TableTexts::empty_is_text))]
pub(crate) fn source_at(
    alloc: Global,
    names: &Names,
    version: &Version,
    method: MethodId,
) -> Result<Told, AllocError>
    requires { AllCompiled names.now version.now }
    ensures { IfOk result (λ told. view told ≡ string (source_in version.now method.0)) }
{
    match version.method(method) {
        Some(method) => Told::text(alloc, method.source()),
        None => Told::text(alloc, b""),
    }
}

/// A method, and the class that has it.
fn found_source(
    alloc: Global,
    names: &Names,
    version: &Version,
    class: ClassId,
    found: Found,
) -> Result<Told, AllocError>
    requires { AllCompiled names.now version.now }
    ensures { IfOk result (λ told. view told ≡ source_of version.now (class, found)) }
{
    let mut members = Members::new(alloc);
    members.put(alloc, "class", class_text(alloc, version, class)?)?;
    match found {
        Found::User(method) => {
            members.put(alloc, "source", source_at(alloc, names, version, method)?)?;
            members.put(alloc, "version", version_of(method))?;
        }
        Found::Kernel(_) => members.put(alloc, "kernel", Told::truth(true))?,
    }
    Ok(members.told())
}

/// The first class on the chain of a class that has a method of its own for a selector.
fn holder(version: &Version, class: ClassId, selector: Selector) -> Option<(ClassId, Found)>
    requires { is_class version.now class ≡ true }
    ensures { result ≡ holder_in version.now selector (chain version.now class) }
{
    version.known();
    let mut at = class;
    'up: loop {
        if let Some(found) = own(version, at, selector) {
            return Some((at, found));
        }
        match version.parent(at) {
            Some(up) => at = up,
            None => return None,
        }
    }
}

/// What is told of what a send to an instance of a class runs. `NoSuchMethod` says that no class on its chain has a method.
pub(crate) fn source(
    alloc: Global,
    names: &Names,
    version: &Version,
    class: ClassId,
    selector: Selector,
) -> Result<Told, Refusal>
    requires class { is_class version.now class ≡ true }
    requires compiled { AllCompiled names.now version.now }
    ensures { IsAnswer (source_told version.now class selector) result }
{
    match holder(version, class, selector) {
        Some((holder, found)) => Ok(found_source(alloc, names, version, holder, found)?),
        None => Err(Refusal::NoSuchMethod),
    }
}
