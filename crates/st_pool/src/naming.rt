//! Which ledgers and which list of images a pool has.
use std::marker::{Brand, PhantomData};
use std::sync::ledger::Ledger;

/// What names a pool in proofs: its four ledgers, the amounts from which they count, and the book of the images that were seen. A
/// call of a generic function picks them, so a program passes `Brand`.
pub trait Naming {
    ghost use Rattle.std.specs.Prelude.{ℕ};
    ghost use Rattle.logbook.specs.Pages.{Book};
    ghost use Rattle.st_calls.specs.Growth.{Amounts};
    ghost use Rattle.st_image.specs.Images.{ImageView};

    ghost posts: { ℕ };

    ghost edits: { ℕ };

    ghost steps: { ℕ };

    ghost emptied: { ℕ };

    ghost start: { Amounts };

    ghost first: { ImageView };

    ghost book: { Book };
}

impl Naming for Brand {
    ghost use Rattle.st_image.specs.Images.{new_image};

    ghost posts = { 0 };

    ghost edits = { 0 };

    ghost steps = { 0 };

    ghost emptied = { 0 };

    ghost start = { record { posts = 0; edits = 0; steps = 0 } };

    ghost first = { new_image (record { capacity = 1; history = 1 }) };

    ghost book = { record { number = 0; log_name = 0; cells_name = 0 } };
}

/// The ledger of accepted posts.
pub struct Posts<K: Naming> {
    of: PhantomData<K>,
}

impl<K: Naming> Ledger for Posts<K> {
    ghost name = { K.posts };

    ghost parts = { 4294967296 };
}

/// The ledger of accepted edits.
pub struct Edits<K: Naming> {
    of: PhantomData<K>,
}

impl<K: Naming> Ledger for Edits<K> {
    ghost name = { K.edits };

    ghost parts = { 4294967296 };
}

/// The ledger of committed steps.
pub struct Steps<K: Naming> {
    of: PhantomData<K>,
}

impl<K: Naming> Ledger for Steps<K> {
    ghost name = { K.steps };

    ghost parts = { 4294967296 };
}

/// The ledger of the items of histories that checkpoints have emptied.
pub struct Emptied<K: Naming> {
    of: PhantomData<K>,
}

impl<K: Naming> Ledger for Emptied<K> {
    ghost name = { K.emptied };

    ghost parts = { 4294967296 };
}
