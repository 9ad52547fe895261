//! Copies of items.
ghost use Rattle.std.specs.Prelude.{◌≡◌, IfOk};

use st_image::history::Item;
use std::alloc::{AllocError, Global};

/// A copy of an item. An edit is shared.
fn copied_item(alloc: Global, item: &Item) -> Result<Item, AllocError>
    ensures { IfOk result (λ copy. copy ≡ item.now) }
{
    Ok(match item {
        Item::Edited(edit) => Item::Edited(edit.again()?),
        Item::Created(class) => Item::Created(*class),
        Item::Posted { actor, message } => Item::Posted {
            actor: *actor,
            message: message.copy(alloc)?,
        },
        Item::Closed(actor) => Item::Closed(*actor),
        Item::Begun(actor) => Item::Begun(*actor),
        Item::Ran { actor, steps } => Item::Ran {
            actor: *actor,
            steps: *steps,
        },
    })
}

/// Copies of items. Edits are shared. Fails only if memory runs out.
pub fn copied_items(alloc: Global, items: &[Item]) -> Result<Vec<Item>, AllocError>
    ensures { IfOk result (λ copies. copies.items ≡ items.now) }
{
    let mut copies = Vec::with_capacity(alloc, items.len())?;
    for item in items {
        copies.push(copied_item(alloc, item)?)?;
    }
    Ok(copies)
}
