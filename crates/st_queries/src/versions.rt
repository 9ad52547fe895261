//! What happened at a place of the class table.
ghost use Rattle.std.specs.Prelude.{◌≡◌, true, IfOk, slice_get};
ghost use Rattle.std.specs.Str.{is_utf8};
ghost use Rattle.serde_json.specs.View.{view};
ghost use Rattle.st_image.specs.CompiledEdits.{AllCompiled};
ghost use Rattle.st_queries.specs.Answers.{install_told, removal_told, version_told, versions_told};

use crate::listing::{Rows, list, only};
use crate::methods::version_of;
use st_classes::edits::Edit;
use st_classes::names::Names;
use st_classes::values::{ClassId, MethodId, Selector};
use st_classes::version::Version;
use st_wire::told::{Members, Told};
use std::alloc::{AllocError, Global};

/// The rows of the installs and removals of a class's own method for a selector, by their places.
#[derive(Drop)]
struct VersionRows<'a> {
    names: &'a Names,
    version: &'a Version,
    class: ClassId,
    selector: Selector,
}

/// An install.
fn install(alloc: Global, source: &[u8], place: u32) -> Result<Told, AllocError>
    requires { is_utf8 source.now ≡ true }
    ensures { IfOk result (λ told. view told ≡ install_told source.now place) }
{
    let mut members = Members::new(alloc);
    members.put(alloc, "source", Told::text(alloc, source)?)?;
    members.put(alloc, "version", version_of(MethodId(place)))?;
    Ok(members.told())
}

/// A removal.
fn removal(alloc: Global, place: u32) -> Result<Told, AllocError>
    ensures { IfOk result (λ told. view told ≡ removal_told place) }
{
    let mut members = Members::new(alloc);
    members.put(alloc, "removed", Told::truth(true))?;
    members.put(alloc, "version", version_of(MethodId(place)))?;
    Ok(members.told())
}

impl<'a> Rows for VersionRows<'a> {
    ghost is_row = { λ v n. AllCompiled v.names.now v.version.now };

    ghost row_of = { λ v n. version_told v.class v.selector n (slice_get v.version.now n) };

    fn row(&self, alloc: Global, number: u32) -> Result<Option<Told>, AllocError> {
        match self.version.edit(number) {
            Some(Edit::Install { class, method })
                if *class == self.class && method.selector() == self.selector => {
                Ok(Some(install(alloc, method.source(), number)?))
            }
            Some(Edit::Remove { class, selector })
                if *class == self.class && *selector == self.selector => {
                Ok(Some(removal(alloc, number)?))
            }
            _ => Ok(None),
        }
    }
}

/// What is told of the installs and removals of a class's own method for a selector.
pub(crate) fn versions(
    alloc: Global,
    names: &Names,
    version: &Version,
    class: ClassId,
    selector: Selector,
) -> Result<Told, AllocError>
    requires { AllCompiled names.now version.now }
    ensures { IfOk result (λ told. view told ≡ versions_told version.now class selector) }
{
    let rows = VersionRows {
        names,
        version,
        class,
        selector,
    };
    let told = list(alloc, &rows, 0, version.edits())?;
    only(alloc, "versions", told)
}
