//! What a caller and a worker have done, with their shares of the ledgers.
ghost use Rattle.std.specs.Prelude.{◌≡◌, OnOk};
ghost use Rattle.st_pool.specs.Done.{one_call_more};

use crate::accounts::Account;
use crate::naming::{Edits, Emptied, Naming, Posts, Steps};
use crate::receipts::Receipt;
use st_classes::values::Value;
use std::alloc::AllocError;
use std::marker::Model;
use std::sync::ledger::Share;

/// What a caller has done: the edits and the posts that were accepted, with a receipt for each post, the items of histories that its
/// checkpoints have emptied, and how many calls it has made.
#[derive(Drop)]
pub struct CallerShare<K: Naming> {
    pub(crate) account: Account,
    /// Room for the arguments of the next receipt.
    pub(crate) room: Vec<Value>,
    pub(crate) posted: Share<Posts<K>>,
    pub(crate) edited: Share<Edits<K>>,
    pub(crate) cleared: Share<Emptied<K>>,
}

impl<K: Naming> Model for CallerShare<K> {
    ghost use Rattle.std.specs.Prelude.{◌≡◌, length};
    ghost use Rattle.st_pool.specs.Done.{Done};

    ghost Value = { Done };

    ghost view = { λ s. s.account };

    ghost invariant = { λ s. (s.posted.parts ≡ 1) × (s.edited.parts ≡ 1) × (s.cleared.parts ≡ 1)
        × (s.posted.amount ≡ length s.account.receipts) × (s.edited.amount ≡ s.account.edits) × (s.cleared.amount ≡ s.account.emptied) };
}

/// A copy of arguments, in room that was made for them if it is enough.
pub(crate) fn copied(room: &mut Vec<Value>, args: &[Value]) -> Result<(), AllocError>
    ensures { OnOk result (room.new.items ≡ args.now) }
{
    room.clear();
    room.extend_from_slice(args)
}

impl<K: Naming> CallerShare<K> {
    /// Makes room for the receipt of a message with this many arguments, so that its post takes no memory for it.
    pub(crate) fn make_room(&mut self, arguments: usize) -> Result<(), AllocError>
        ensures { self.new ≡ self.old }
    {
        self.account.receipts.reserve(1)?;
        self.room.clear();
        self.room.reserve(arguments)
    }

    /// Counts a call.
    pub(crate) fn count_call(&mut self)
        ensures { self.new ≡ one_call_more self.old }
    {
        self.account.count_call();
    }

    /// A receipt for each post that was accepted, in order.
    pub fn receipts(&self) -> &[Receipt]
        ensures { result.now ≡ self.now.receipts }
    {
        self.account.receipts.as_slice()
    }

    /// How many edits were accepted.
    pub fn edits(&self) -> u64
        ensures { result ≡ self.now.edits }
    {
        self.account.edits
    }
}

/// What a worker has done. Contracts see the steps that it committed.
#[derive(Drop)]
pub struct WorkerShare<K: Naming> {
    pub(crate) steps: u64,
    pub(crate) ran: Share<Steps<K>>,
}

impl<K: Naming> Model for WorkerShare<K> {
    ghost use Rattle.std.specs.Prelude.{◌≡◌, ℕ};

    ghost Value = { ℕ };

    ghost view = { λ s. s.steps };

    ghost invariant = { λ s. (s.ran.parts ≡ 1) × (s.ran.amount ≡ s.steps) };
}

impl<K: Naming> WorkerShare<K> {
    /// How many steps were committed.
    pub fn steps(&self) -> u64
        ensures { result ≡ self.now }
    {
        self.steps
    }
}
