//! What callers and workers have done, as plain data.
ghost use Rattle.std.specs.Prelude.{◌≡◌};
ghost use Rattle.st_pool.specs.Done.{nothing_done, one_call_more};

use crate::receipts::Receipt;
use std::alloc::Global;
use std::marker::Model;

/// What a caller has done: how many of its edits were accepted, a receipt for each of its posts that was, how many items of histories
/// its checkpoints have emptied, and how many calls it has made.
#[derive(Drop)]
pub struct Account {
    pub edits: u64,
    pub receipts: Vec<Receipt>,
    pub emptied: u64,
    calls: u64,
}

impl Model for Account {
    ghost use Rattle.st_pool.specs.Done.{Done};

    ghost Value = { Done };

    ghost view = { λ a. record { edits = a.edits; receipts = a.receipts.items; emptied = a.emptied; calls = a.calls } };
}

impl Account {
    /// That of a caller that has done nothing.
    pub(crate) fn new(alloc: Global) -> Account
        ensures { result ≡ nothing_done }
    {
        Account {
            edits: 0,
            receipts: Vec::new(alloc),
            emptied: 0,
            calls: 0,
        }
    }

    /// Counts a call.
    pub(crate) fn count_call(&mut self)
        ensures { self.new ≡ one_call_more self.old }
    {
        self.calls = self.calls.wrapping_add(1);
    }

    /// How many calls of the image were made, refused ones too, modulo 2^64. What only reads is none.
    pub fn calls(&self) -> u64
        ensures { result ≡ self.now.calls }
    {
        self.calls
    }
}

/// What each caller has done, and how many steps each worker has committed.
#[derive(Drop)]
pub struct Accounts {
    pub callers: Vec<Account>,
    pub workers: Vec<u64>,
}
