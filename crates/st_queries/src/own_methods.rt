//! The methods that classes have of their own.
ghost use Rattle.std.specs.Prelude.{◌≡◌, ◌+◌, ◌<◌, true, IfOk, IfSome, map, length, slice_index_or, slice_set};
ghost use Rattle.std.specs.List.{range_with_len};
ghost use Rattle.st_classes.specs.Classes.{class_count, is_class};
ghost use Rattle.st_classes.specs.Kernel.{class as class_at};
ghost use Rattle.st_classes.specs.Walks.{own as own_in};
ghost use Rattle.st_queries.specs.OwnMethods.{IfUser, installed_version, installs_in, is_from, kernel_methods_in, own_version as version_in, standing as standing_in};

use st_classes::counted_rows::{ClassRows, CountedRows};
use st_classes::edits::Edit;
use st_classes::kernel::{Found, kernel_at};
use st_classes::names::Names;
use st_classes::values::{ClassId, Selector};
use st_classes::version::Version;
use std::alloc::{AllocError, Global};

/// How many selectors the kernel has.
const KERNEL_SELECTORS: u16 = 22;

/// The method that a class has of its own for a selector.
pub(crate) fn own(version: &Version, class: ClassId, selector: Selector) -> Option<Found>
    requires { is_class version.now class ≡ true }
    ensures { result ≡ own_in version.now class selector }
{
    let mut rows = CountedRows::new(version);
    rows.read(class, selector).own
}

/// The version of what was found: the number of edits with its install. 0 if nothing was installed.
fn version_of(version: &Version, found: Option<Found>) -> u32
    requires { IfUser found (λ m. m.0 < length version.now) }
    ensures { result ≡ installed_version found }
{
    version.known();
    match found {
        Some(Found::User(method)) => method.0 + 1,
        _ => 0,
    }
}

/// The version of a class's own method for the selector with a text; 0 if none is installed.
pub fn own_version(names: &Names, version: &Version, class: ClassId, text: &[u8]) -> u32
    requires { is_class version.now class ≡ true }
    ensures { result ≡ version_in names.now version.now class text.now }
{
    match names.find(text) {
        Some(selector) => version_of(version, own(version, class, selector)),
        None => 0,
    }
}

/// Whether what was found is the method that was installed at a place.
fn is_at(place: u32, found: Option<Found>) -> bool
    ensures { result ≡ is_from place found }
{
    match found {
        Some(Found::User(method)) => method.0 == place,
        _ => false,
    }
}

/// The class of the install at a place that still stands.
pub(crate) fn standing(version: &Version, place: u32) -> Option<ClassId>
    ensures standing { result ≡ standing_in version.now place }
    ensures class { IfSome result (λ c. is_class version.now c ≡ true) }
{
    version.known();
    match version.edit(place) {
        Some(Edit::Install { class, method }) => {
            if is_at(place, own(version, *class, method.selector())) {
                Some(*class)
            } else {
                None
            }
        }
        _ => None,
    }
}

/// Counts one more at a place.
fn raise(counts: &mut Vec<u16>, place: usize)
    requires within { place < length counts.old.items }
    requires few { slice_index_or counts.old.items place 0 < 65535 }
    ensures { counts.new.items ≡ slice_set counts.old.items place (slice_index_or counts.old.items place 0 + 1) }
{
    counts[place] += 1;
}

/// For each class, how many installs stand in it.
pub(crate) fn installs(alloc: Global, version: &Version) -> Result<Vec<u16>, AllocError>
    ensures { IfOk result (λ counts. counts.items ≡ map (λ n. installs_in version.now (class_at n)) (range_with_len 0 (class_count version.now))) }
{
    version.known();
    let classes = version.classes() as usize;
    let mut counts = Vec::with_capacity(alloc, classes)?;
    counts.resize(classes, 0u16)?;
    for place in 0..version.edits() {
        if let Some(class) = standing(version, place) {
            raise(&mut counts, usize::from(class.0));
        }
    }
    Ok(counts)
}

/// How many methods the kernel gives a class.
pub(crate) fn kernel_methods(class: ClassId) -> u16
    ensures { result ≡ kernel_methods_in class }
{
    let mut count = 0;
    for number in 0..KERNEL_SELECTORS {
        if kernel_at(class, Selector(number)).is_some() {
            count += 1;
        }
    }
    count
}
