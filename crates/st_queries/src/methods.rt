//! The methods that a class has of its own.
ghost use Rattle.std.specs.Prelude.{◌≡◌, ◌<◌, true, IfOk, length, option_map};
ghost use Rattle.serde_json.specs.View.{view};
ghost use Rattle.st_classes.specs.Classes.{is_class};
ghost use Rattle.st_classes.specs.Kernel.{selector as selector_at};
ghost use Rattle.st_classes.specs.Walks.{own as own_in};
ghost use Rattle.st_queries.specs.Answers.{method_told, methods_told, version_of as version_at};

use crate::listing::{Rows, list, only};
use crate::own_methods::own;
use crate::texts::selector_text;
use st_classes::kernel::Found;
use st_classes::names::Names;
use st_classes::values::{ClassId, MethodId, Selector};
use st_classes::version::Version;
use st_wire::told::{Members, Told};
use std::alloc::{AllocError, Global};

/// The version at which a method was installed.
pub(crate) fn version_of(method: MethodId) -> Told
    ensures { view result ≡ version_at method.0 }
{
    Told::whole(u64::from(method.0) + 1)
}

/// A method of a class's own.
fn method(
    alloc: Global,
    names: &Names,
    selector: Selector,
    found: Found,
) -> Result<Told, AllocError>
    ensures { IfOk result (λ told. view told ≡ method_told names.now selector found) }
{
    let mut members = Members::new(alloc);
    match found {
        Found::User(method) => {
            members.put(alloc, "selector", selector_text(alloc, names, selector)?)?;
            members.put(alloc, "version", version_of(method))?;
        }
        Found::Kernel(_) => {
            members.put(alloc, "kernel", Told::truth(true))?;
            members.put(alloc, "selector", selector_text(alloc, names, selector)?)?;
        }
    }
    Ok(members.told())
}

/// The rows of a class's methods, by the numbers of their selectors.
#[derive(Drop)]
struct MethodRows<'a> {
    names: &'a Names,
    version: &'a Version,
    class: ClassId,
}

impl<'a> Rows for MethodRows<'a> {
    ghost is_row = { λ m n. (is_class m.version.now m.class ≡ true) × (n < length m.names.now) };

    ghost row_of = { λ m n. option_map (method_told m.names.now (selector_at n)) (own_in m.version.now m.class (selector_at n)) };

    fn row(&self, alloc: Global, number: u32) -> Result<Option<Told>, AllocError> {
        self.names.known();
        let selector = Selector(number as u16);
        match own(self.version, self.class, selector) {
            Some(found) => Ok(Some(method(alloc, self.names, selector, found)?)),
            None => Ok(None),
        }
    }
}

/// What is told of a class's own methods.
pub(crate) fn methods(
    alloc: Global,
    names: &Names,
    version: &Version,
    class: ClassId,
) -> Result<Told, AllocError>
    requires { is_class version.now class ≡ true }
    ensures { IfOk result (λ told. view told ≡ methods_told names.now version.now class) }
{
    let rows = MethodRows {
        names,
        version,
        class,
    };
    let told = list(alloc, &rows, 0, names.len())?;
    only(alloc, "methods", told)
}
