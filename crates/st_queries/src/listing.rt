//! Answers that are lists.
ghost use Rattle.std.specs.Prelude.{◌≡◌, ◌<◌, ◌≤◌, ◌-◌, ℕ, IfOk};
ghost use Rattle.serde_json.specs.View.{view};
ghost use Rattle.st_wire.specs.Replies.{only as only_key};
ghost use Rattle.st_file.specs.ListJson.{each as each_of};
ghost use Rattle.st_queries.specs.Listing.{listed};

use st_wire::told::{Items, Members, Told};
use std::alloc::{AllocError, Global};
use std::thread::yield_now;

/// How many numbers are looked at before other threads may run. An answer may take a millisecond, and who wakes meanwhile would wait for
/// its end where no processor is free.
const ROWS_AT_ONCE: u32 = 64;

/// The rows of an answer, by number.
pub(crate) trait Rows {
    ghost use Rattle.std.specs.Prelude.{◌≡◌, ℕ, IfOk, Option, option_map};
    ghost use Rattle.serde_json.specs.Data.{Data};
    ghost use Rattle.serde_json.specs.View.{view};

    /// A number has a row that can be told.
    ghost is_row: { Self → ℕ → Type 0 };

    /// What is told of a number, if anything is.
    ghost row_of: { Self → ℕ → Option Data };

    /// Tells it. Fails only if memory runs out.
    fn row(&self, alloc: Global, number: u32) -> Result<Option<Told>, AllocError>
        requires { is_row self.now number }
        ensures { IfOk result (λ told. option_map view told ≡ row_of self.now number) };
}

/// The list of the rows of the numbers from `from` on, up to but not with `until`. Fails only if memory runs out.
pub(crate) fn list<R: Rows>(
    alloc: Global,
    rows: &R,
    from: u32,
    until: u32,
) -> Result<Told, AllocError>
    requires order { from ≤ until }
    requires rows { (n : ℕ) → from ≤ n → n < until → R.is_row rows.now n }
    ensures { IfOk result (λ told. view told ≡ listed (R.row_of rows.now) from (until - from)) }
{
    let mut items = Items::new(alloc);
    for number in from..until {
        if number.is_multiple_of(ROWS_AT_ONCE) {
            yield_now();
        }
        if let Some(told) = rows.row(alloc, number)? {
            items.push(told)?;
        }
    }
    Ok(items.told())
}

/// How items of a type are told.
pub(crate) trait ToJson<T> {
    ghost use Rattle.std.specs.Prelude.{◌≡◌, IfOk};
    ghost use Rattle.serde_json.specs.Data.{Data};
    ghost use Rattle.serde_json.specs.View.{view};

    /// What is told of an item.
    ghost json: { Self → T → Data };

    /// Tells it. Fails only if memory runs out.
    fn to_json(&self, alloc: Global, item: &T) -> Result<Told, AllocError>
        ensures { IfOk result (λ told. view told ≡ json self.now item.now) };
}

/// The list of what is told of each item. Fails only if memory runs out.
pub(crate) fn each<T, R: ToJson<T>>(
    alloc: Global,
    teller: &R,
    list: &[T],
) -> Result<Told, AllocError>
    ensures { IfOk result (λ told. view told ≡ each_of (R.json teller.now) list.now) }
{
    let mut items = Items::new(alloc);
    for item in list {
        items.push(teller.to_json(alloc, item)?)?;
    }
    Ok(items.told())
}

/// An object with one key.
pub(crate) fn only(alloc: Global, key: &str, told: Told) -> Result<Told, AllocError>
    ensures { IfOk result (λ object. view object ≡ only_key key.now (view told)) }
{
    let mut members = Members::new(alloc);
    members.put(alloc, key, told)?;
    Ok(members.told())
}
