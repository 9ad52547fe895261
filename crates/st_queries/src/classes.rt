//! All classes of an image.
ghost use Rattle.std.specs.Prelude.{◌≡◌, ℕ, true, Some, IfOk, map, length};
ghost use Rattle.std.specs.List.{range_with_len};
ghost use Rattle.serde_json.specs.View.{view};
ghost use Rattle.st_classes.specs.Classes.{class_count, inherited as inherited_by, is_class, parent as parent_of};
ghost use Rattle.st_classes.specs.Kernel.{class as class_at};
ghost use Rattle.st_queries.specs.OwnMethods.{installs_in, method_count as count_of};
ghost use Rattle.st_queries.specs.Answers.{added_slots as added_of, class_told, classes_told, parent_told};
ghost use Rattle.st_file.specs.ListJson as lists;

use crate::listing::{Rows, list, only};
use crate::own_methods::{installs, kernel_methods};
use crate::texts::{class_text, texts};
use st_classes::values::ClassId;
use st_classes::version::Version;
use st_wire::told::{Members, Told};
use std::alloc::{AllocError, Global};

/// The name of a superclass, or null.
fn parent(alloc: Global, version: &Version, class: ClassId) -> Result<Told, AllocError>
    ensures { IfOk result (λ told. view told ≡ parent_told version.now (parent_of version.now class)) }
{
    match version.parent(class) {
        Some(parent) => class_text(alloc, version, parent),
        None => Ok(Told::nothing()),
    }
}

/// How many instance variables a class inherits.
fn inherited(version: &Version, class: ClassId) -> usize
    requires { is_class version.now class ≡ true }
    ensures { result ≡ length (inherited_by version.now class) }
{
    version.known();
    match version.parent(class) {
        Some(parent) => version.slots(parent).len(),
        None => 0,
    }
}

/// The instance variables that a class adds to the inherited ones.
fn added_slots(alloc: Global, version: &Version, class: ClassId) -> Result<Told, AllocError>
    requires { is_class version.now class ≡ true }
    ensures { IfOk result (λ told. view told ≡ lists.texts (added_of version.now class)) }
{
    version.known();
    texts(alloc, version.slots(class), inherited(version, class))
}

/// How many methods a class has of its own, by how many installs stand in each class.
fn method_count(version: &Version, installs: &[u16], class: ClassId) -> u64
    requires class { is_class version.now class ≡ true }
    requires installs { installs.now ≡ map (λ m. installs_in version.now (class_at m)) (range_with_len 0 (class_count version.now)) }
    ensures { result ≡ count_of version.now class }
{
    version.known();
    u64::from(installs[usize::from(class.0)]) + u64::from(kernel_methods(class))
}

/// The rows of the classes.
#[derive(Drop)]
struct ClassRows<'a> {
    version: &'a Version,
    /// How many installs stand in each class.
    installs: &'a [u16],
}

impl<'a> Rows for ClassRows<'a> {
    ghost is_row = { λ c n. (is_class c.version.now (class_at n) ≡ true)
        × (c.installs.now ≡ map (λ m. installs_in c.version.now (class_at m)) (range_with_len 0 (class_count c.version.now))) };

    ghost row_of = { λ c n. Some (class_told c.version.now (class_at n)) };

    fn row(&self, alloc: Global, number: u32) -> Result<Option<Told>, AllocError> {
        self.version.known();
        let class = ClassId(number as u16);
        let methods = method_count(self.version, self.installs, class);
        let mut members = Members::new(alloc);
        members.put(alloc, "methods", Told::whole(methods))?;
        members.put(alloc, "name", class_text(alloc, self.version, class)?)?;
        members.put(alloc, "slots", added_slots(alloc, self.version, class)?)?;
        members.put(alloc, "super", parent(alloc, self.version, class)?)?;
        Ok(Some(members.told()))
    }
}

/// What is told of all classes.
pub(crate) fn classes(alloc: Global, version: &Version) -> Result<Told, AllocError>
    ensures { IfOk result (λ told. view told ≡ classes_told version.now) }
{
    let installs = installs(alloc, version)?;
    let rows = ClassRows {
        version,
        installs: installs.as_slice(),
    };
    let told = list(alloc, &rows, 0, version.classes())?;
    only(alloc, "classes", told)
}
