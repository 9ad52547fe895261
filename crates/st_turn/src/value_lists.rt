//! Lists of values: how they are copied and compared.
ghost use Rattle.std.specs.Prelude.{◌≡◌, ◌↔◌, [], IfOk, IsTrue};

use st_classes::seq::Seq;
use st_classes::values::{Value, Values};
use std::alloc::{AllocError, Global};

/// A vector without its items. If it has room for more than `most`, a new one takes its place, so that the room of a large list does
/// not go on to small ones.
#[inline]
pub(crate) fn emptied<T: Copy>(mut items: Vec<T>, most: usize) -> Vec<T>
    ensures { result.items ≡ [] }
{
    if items.capacity() > most {
        return Vec::new(*items.allocator());
    }
    items.clear();
    items
}

/// A copy of the values.
pub(crate) fn copied(alloc: Global, values: &Values) -> Result<Values, AllocError>
    ensures { IfOk result (λ copy. copy ≡ values.now) }
{
    copied_into(Seq::from_vec(Vec::new(alloc)), values)
}

/// A copy of the values that takes the memory of other ones, as far as it goes.
pub(crate) fn copied_into(spare: Values, values: &Values) -> Result<Values, AllocError>
    ensures { IfOk result (λ copy. copy ≡ values.now) }
{
    let mut items = emptied(
        spare.into_vec(),
        values.len().saturating_mul(2).saturating_add(4),
    );
    items.extend_from_slice(values.as_slice())?;
    Ok(Seq::from_vec(items))
}

/// Whether two lists have the same values.
pub(crate) fn same_values(some: &[Value], others: &[Value]) -> bool
    ensures { IsTrue result ↔ some.now ≡ others.now }
{
    some == others
}
