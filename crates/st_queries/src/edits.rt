//! The edits of a class table, as image files have them.
ghost use Rattle.std.specs.Prelude.{◌≡◌, ◌≤◌, true, All, IfOk, length, option_map, slice_get};
ghost use Rattle.std.specs.Str.{is_utf8};
ghost use Rattle.serde_json.specs.View.{view};
ghost use Rattle.st_file.specs.Tellable.{IsText};
ghost use Rattle.st_image.specs.CompiledEdits.{AllCompiled};
ghost use Rattle.st_file.specs.EditJson.{define_json, edit_json, install_json, remove_json, reparent_json};
ghost use Rattle.st_queries.specs.Edits.{edits_behind};

use crate::listing::{Rows, list, only};
use crate::texts::{class_text, texts};
use crate::values::method_named;
use st_classes::edits::Edit;
use st_classes::names::Names;
use st_classes::seq::Seq;
use st_classes::values::{ClassId, Selector};
use st_classes::version::Version;
use st_wire::told::{Members, Told};
use std::alloc::{AllocError, Global};

/// The most edits of an answer.
const MOST: u32 = 256;

/// A class was defined.
fn define(
    alloc: Global,
    version: &Version,
    name: &[u8],
    parent: ClassId,
    slots: &[Seq<u8>],
) -> Result<Told, AllocError>
    requires name { is_utf8 name.now ≡ true }
    requires slots { All IsText slots.now }
    ensures { IfOk result (λ told. view told ≡ define_json version.now name.now parent slots.now) }
{
    let mut members = Members::new(alloc);
    members.put(alloc, "name", Told::text(alloc, name)?)?;
    members.put(alloc, "slots", texts(alloc, slots, 0)?)?;
    members.put(alloc, "super", class_text(alloc, version, parent)?)?;
    only(alloc, "define", members.told())
}

/// A source was installed in a class.
fn install(
    alloc: Global,
    version: &Version,
    class: ClassId,
    source: &[u8],
) -> Result<Told, AllocError>
    requires { is_utf8 source.now ≡ true }
    ensures { IfOk result (λ told. view told ≡ install_json version.now class source.now) }
{
    let mut members = Members::new(alloc);
    members.put(alloc, "class", class_text(alloc, version, class)?)?;
    members.put(alloc, "source", Told::text(alloc, source)?)?;
    only(alloc, "install", members.told())
}

/// A class's own method was removed.
fn removal(
    alloc: Global,
    names: &Names,
    version: &Version,
    class: ClassId,
    selector: Selector,
) -> Result<Told, AllocError>
    ensures { IfOk result (λ told. view told ≡ remove_json names.now version.now class selector) }
{
    only(
        alloc,
        "remove",
        method_named(alloc, names, version, class, selector)?,
    )
}

/// A class got another superclass.
fn reparent(
    alloc: Global,
    version: &Version,
    class: ClassId,
    parent: ClassId,
) -> Result<Told, AllocError>
    ensures { IfOk result (λ told. view told ≡ reparent_json version.now class parent) }
{
    let mut members = Members::new(alloc);
    members.put(alloc, "class", class_text(alloc, version, class)?)?;
    members.put(alloc, "super", class_text(alloc, version, parent)?)?;
    only(alloc, "reparent", members.told())
}

/// The rows of the edits, by their places.
#[derive(Drop)]
struct EditRows<'a> {
    names: &'a Names,
    version: &'a Version,
}

impl<'a> Rows for EditRows<'a> {
    ghost is_row = { λ e n. AllCompiled e.names.now e.version.now };

    ghost row_of = { λ e n. option_map (edit_json e.names.now e.version.now) (slice_get e.version.now n) };

    fn row(&self, alloc: Global, number: u32) -> Result<Option<Told>, AllocError> {
        let (names, version) = (self.names, self.version);
        version.known();
        let told = match version.edit(number) {
            Some(
                Edit::Define {
                    name,
                    parent,
                    slots,
                },
            ) => define(alloc, version, name.as_slice(), *parent, slots.as_slice())?,
            Some(Edit::Install { class, method }) => {
                install(alloc, version, *class, method.source())?
            }
            Some(Edit::Remove { class, selector }) => {
                removal(alloc, names, version, *class, *selector)?
            }
            Some(Edit::Reparent { class, parent }) => reparent(alloc, version, *class, *parent)?,
            None => return Ok(None),
        };
        Ok(Some(told))
    }
}

/// What is told of the edits behind the first ones.
pub(crate) fn edits(
    alloc: Global,
    names: &Names,
    version: &Version,
    from: u32,
) -> Result<Told, AllocError>
    requires compiled { AllCompiled names.now version.now }
    requires within { from ≤ length version.now }
    ensures { IfOk result (λ told. view told ≡ edits_behind names.now version.now from) }
{
    version.known();
    let count = version.edits();
    let rows = EditRows { names, version };
    let until = from + MOST.min(count - from);
    let mut members = Members::new(alloc);
    members.put(alloc, "edits", list(alloc, &rows, from, until)?)?;
    members.put(alloc, "version", Told::whole(count.into()))?;
    Ok(members.told())
}
