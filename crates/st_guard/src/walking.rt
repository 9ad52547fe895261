//! The walk up the superclass chain, by rows of the class table.
ghost use Rattle.std.specs.Prelude.{◌≡◌, ◌+◌, ◌^◌, ◌%◌, true, IfSome};
ghost use Rattle.st_classes.specs.Classes.{chain, is_class, parent};
ghost use Rattle.st_classes.specs.Walks.{found_by, or_missing, super_walk, walk};
ghost use Rattle.st_guard.specs.RowsRead.{rows_from, rows_missing, rows_read, rows_walked};

use st_classes::counted_rows::ClassRows;
use st_classes::kernel::{DOES_NOT_UNDERSTAND, Found, Target};
use st_classes::keys::Key;
use st_classes::values::{ClassId, Selector};

/// The first method for a selector on the way up from a class, if there is one.
fn walk<R: ClassRows>(rows: &mut R, class: ClassId, selector: Selector) -> Option<Found>
    requires { is_class (R.edits rows.old) class ≡ true }
    ensures found { result ≡ walk (R.edits rows.old) class selector }
    ensures edits { R.edits rows.new ≡ R.edits rows.old }
    ensures reads { R.reads rows.new ≡ (R.reads rows.old + rows_walked (R.edits rows.old) (chain (R.edits rows.old) class) selector) % 2 ^ 64 }
{
    rows.known();
    let mut at = class;
    'up: loop {
        let row = rows.read(at, selector);
        if let Some(found) = row.own {
            return Some(found);
        }
        match row.parent {
            Some(up) => at = up,
            None => return None,
        }
    }
}

/// What a message runs after a walk: the method that the walk found, or else the user's method for `doesNotUnderstand:`, if there
/// is one.
fn or_missing<R: ClassRows>(rows: &mut R, class: ClassId, found: Option<Found>) -> Target
    requires { is_class (R.edits rows.old) class ≡ true }
    ensures target { result ≡ or_missing (R.edits rows.old) class found }
    ensures edits { R.edits rows.new ≡ R.edits rows.old }
    ensures reads { R.reads rows.new ≡ (R.reads rows.old + rows_missing (R.edits rows.old) class found) % 2 ^ 64 }
{
    rows.known();
    match found {
        Some(Found::User(id)) => Target::Run(id),
        Some(Found::Kernel(kernel)) => Target::Primitive(kernel),
        None => Target::Missing(match walk(rows, class, DOES_NOT_UNDERSTAND) {
            Some(Found::User(id)) => Some(id),
            _ => None,
        }),
    }
}

/// The walk of a super send: it begins at the superclass of the class that holds the sending method.
fn walk_above<R: ClassRows>(rows: &mut R, holder: ClassId, selector: Selector) -> Option<Found>
    requires { is_class (R.edits rows.old) holder ≡ true }
    ensures found { result ≡ super_walk (R.edits rows.old) holder selector }
    ensures edits { R.edits rows.new ≡ R.edits rows.old }
    ensures reads { R.reads rows.new ≡ (R.reads rows.old + (1 + rows_from (R.edits rows.old) (parent (R.edits rows.old) holder) selector)) % 2 ^ 64 }
{
    rows.known();
    match rows.read(holder, selector).parent {
        Some(up) => walk(rows, up, selector),
        None => None,
    }
}

/// What a send with this key runs, by a walk alone. The contract says exactly how many rows are read.
pub fn find<R: ClassRows>(rows: &mut R, key: Key) -> Target
    requires class { is_class (R.edits rows.old) key.class ≡ true }
    requires holder { IfSome key.holder (λ h. is_class (R.edits rows.old) h ≡ true) }
    ensures target { result ≡ found_by (R.edits rows.old) key }
    ensures edits { R.edits rows.new ≡ R.edits rows.old }
    ensures reads { R.reads rows.new ≡ (R.reads rows.old + rows_read (R.edits rows.old) key) % 2 ^ 64 }
{
    let found = match key.holder {
        None => walk(rows, key.class, key.selector),
        Some(holder) => walk_above(rows, holder, key.selector),
    };
    or_missing(rows, key.class, found)
}
