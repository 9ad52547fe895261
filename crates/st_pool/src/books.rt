//! The books of a pool: accepted posts, accepted edits, committed steps, and the items of histories that checkpoints have emptied. Four
//! ledgers of the library, as one.
ghost use Rattle.std.specs.Prelude.{◌≡◌, ℕ, ◌+◌, ◌<◌, ◌≤◌, ◌^◌, [], ◌∷◌, ◌++◌, count_by, length, reverse, vec_capacity, vec_len, nat_lt};
ghost use Rattle.std.specs.List.{sum_by};
ghost use Rattle.st_pool.specs.Done.{Done};
ghost use Rattle.st_pool.specs.Settled.{emptied_by, gone as gone_of};

use crate::accounts::{Account, Accounts};
use crate::naming::{Edits, Emptied, Naming, Posts, Steps};
use crate::receipts::Receipt;
use crate::shares::{CallerShare, WorkerShare};
use crate::totals::Totals;
use st_calls::calls::Answer;
use st_classes::refusals::Refusal;
use std::alloc::Global;
use std::marker::Model;
use std::sync::ledger::{Blank, Book, Share};

/// The number of parts of a ledger: one for each share that may be given out, and one that stays.
pub const PARTS: u64 = 1 << 32;

/// Four new ledgers of 2^32 parts each, to which no type belongs yet.
pub struct Blanks {
    pub posts: Blank,
    pub edits: Blank,
    pub steps: Blank,
    pub emptied: Blank,
    pub ghost parts: { (posts.parts ≡ 4294967296) × (edits.parts ≡ 4294967296) × (steps.parts ≡ 4294967296) × (emptied.parts ≡ 4294967296) },
}

impl Blanks {
    /// New ledgers.
    pub fn new() -> Blanks {
        Blanks {
            posts: Blank::new(PARTS),
            edits: Blank::new(PARTS),
            steps: Blank::new(PARTS),
            emptied: Blank::new(PARTS),
        }
    }
}

/// The books under the lock, and what was not given out of each ledger.
#[derive(Drop)]
pub struct Books<K: Naming> {
    posts: Book<Posts<K>>,
    edits: Book<Edits<K>>,
    steps: Book<Steps<K>>,
    cleared: Book<Emptied<K>>,
    posts_left: Share<Posts<K>>,
    edits_left: Share<Edits<K>>,
    steps_left: Share<Steps<K>>,
    cleared_left: Share<Emptied<K>>,
    callers: u64,
    workers: u64,
    /// How many items of histories checkpoints have emptied, at most 2^63 - 1.
    emptied: u64,
}

impl<K: Naming> Model for Books<K> {
    ghost use Rattle.std.specs.Prelude.{◌≡◌, ◌+◌, ◌<◌, ◌≤◌};
    ghost use Rattle.st_image.specs.Counts.{most_counted};
    ghost use Rattle.st_pool.specs.Books.{BooksView};

    ghost Value = { BooksView };

    ghost view = { λ b. record { posts = b.posts.total; edits = b.edits.total; steps = b.steps.total; callers = b.callers; workers = b.workers; emptied = b.emptied } };

    ghost invariant = { λ b. (b.posts_left.parts + b.callers ≡ 4294967296) × (b.edits_left.parts + b.callers ≡ 4294967296) × (b.steps_left.parts + b.workers ≡ 4294967296)
        × (b.posts_left.amount ≡ 0) × (b.edits_left.amount ≡ 0) × (b.steps_left.amount ≡ 0) × (b.callers < 4294967296) × (b.workers < 4294967296)
        × (b.cleared_left.parts + b.callers ≡ 4294967296) × (b.cleared_left.amount ≡ 0) × (b.cleared.total ≡ b.emptied) × (b.emptied ≤ most_counted) };
}

/// How many receipts have their items among the first `emptied` items, which checkpoints have emptied.
fn gone(emptied: u64, receipts: &[Receipt]) -> u64
    ensures value { result ≡ count_by (λ r. nat_lt r.place emptied) receipts.now }
    ensures few { result ≤ length receipts.now }
{
    receipts
        .iter()
        .filter(|receipt| receipt.place < emptied)
        .count() as u64
}

/// Adds an account, if there is room for it.
fn keep(accounts: &mut Vec<Account>, account: Account)
    ensures kept { vec_len accounts.old < vec_capacity accounts.old → accounts.new.items ≡ accounts.old.items ++ account ∷ [] }
    ensures capacity { vec_capacity accounts.new ≡ vec_capacity accounts.old }
{
    if accounts.len() < accounts.capacity() {
        accounts.push_reserved(account);
    }
}

/// Adds the steps of a worker, if there is room for them.
fn keep_steps(workers: &mut Vec<u64>, steps: u64)
    ensures kept { vec_len workers.old < vec_capacity workers.old → workers.new.items ≡ workers.old.items ++ steps ∷ [] }
    ensures capacity { vec_capacity workers.new ≡ vec_capacity workers.old }
{
    if workers.len() < workers.capacity() {
        workers.push_reserved(steps);
    }
}

/// Takes in the callers' shares, and answers the sums of their posts and edits, and how many receipts have their items among the
/// first `emptied` items. If there is room, it leaves the callers' accounts there, the last one first.
fn gather_callers<K: Naming>(
    posts: &mut Book<Posts<K>>,
    edits: &mut Book<Edits<K>>,
    posts_left: &mut Share<Posts<K>>,
    edits_left: &mut Share<Edits<K>>,
    cleared_left: &mut Share<Emptied<K>>,
    emptied: u64,
    mut callers: Vec<CallerShare<K>>,
    accounts: &mut Vec<Account>,
) -> (u64, u64, u64)
    requires new { accounts.old.items ≡ [] }
    requires few { (posts.old.total < 2 ^ 63) × (edits.old.total < 2 ^ 63) }
    requires empty { (posts_left.old.amount ≡ 0) × (edits_left.old.amount ≡ 0) }
    requires some { (0 < posts_left.old.parts) × (0 < edits_left.old.parts) }
    ensures books { (posts.new.total ≡ posts.old.total) × (edits.new.total ≡ edits.old.total) }
    ensures posts { (result.0 ≡ sum_by (λ (d : Done). length d.receipts) callers.items) × (posts_left.new.amount ≡ result.0) }
    ensures edits { (result.1 ≡ sum_by (λ (d : Done). d.edits) callers.items) × (edits_left.new.amount ≡ result.1) }
    ensures gone { result.2 ≡ sum_by (gone_of emptied) callers.items }
    ensures cleared { cleared_left.new.amount ≡ cleared_left.old.amount + emptied_by callers.items }
    ensures accounts { vec_len callers ≤ vec_capacity accounts.old → reverse accounts.new.items ≡ callers.items }
    ensures parts { (posts_left.new.parts ≡ posts_left.old.parts + vec_len callers) × (edits_left.new.parts ≡ edits_left.old.parts + vec_len callers)
        × (cleared_left.new.parts ≡ cleared_left.old.parts + vec_len callers) }
{
    let mut posted_sum: u64 = 0;
    let mut edited_sum: u64 = 0;
    let mut gone_sum: u64 = 0;
    while let Some(share) = callers.pop() {
        let CallerShare {
            account,
            room: _,
            posted,
            edited,
            cleared,
        } = share;
        posts_left.merge(posted);
        edits_left.merge(edited);
        cleared_left.merge(cleared);
        posts.audit(posts_left);
        edits.audit(edits_left);
        posted_sum += account.receipts.len() as u64;
        edited_sum += account.edits;
        gone_sum += gone(emptied, account.receipts.as_slice());
        keep(accounts, account);
    }
    (posted_sum, edited_sum, gone_sum)
}

/// Takes in the workers' shares, and answers the sum of their steps. If there is room, it leaves the steps of each there, the last
/// one first.
fn gather_workers<K: Naming>(
    steps: &mut Book<Steps<K>>,
    left: &mut Share<Steps<K>>,
    mut workers: Vec<WorkerShare<K>>,
    kept: &mut Vec<u64>,
) -> u64
    requires new { kept.old.items ≡ [] }
    requires few { steps.old.total < 2 ^ 63 }
    requires empty { left.old.amount ≡ 0 }
    requires some { 0 < left.old.parts }
    ensures book { steps.new.total ≡ steps.old.total }
    ensures steps { (result ≡ sum_by (λ (n : ℕ). n) workers.items) × (left.new.amount ≡ result) }
    ensures kept { vec_len workers ≤ vec_capacity kept.old → reverse kept.new.items ≡ workers.items }
    ensures parts { left.new.parts ≡ left.old.parts + vec_len workers }
{
    let mut sum: u64 = 0;
    while let Some(share) = workers.pop() {
        let WorkerShare { steps: taken, ran } = share;
        left.merge(ran);
        steps.audit(left);
        sum += taken;
        keep_steps(kept, taken);
    }
    sum
}

impl<K: Naming> Books<K> {
    ghost use Rattle.std.specs.Prelude.{◌≡◌, ◌+◌, ◌<◌, ◌≤◌, ◌^◌, [], length, vec_capacity, vec_len};
    ghost use Rattle.st_calls.specs.Growth.{committed, counted, edits_by};
    ghost use Rattle.st_pool.specs.Books.{no_books};
    ghost use Rattle.st_pool.specs.Done.{nothing_done};
    ghost use Rattle.std.specs.List.{sum_by};
    ghost use Rattle.st_image.specs.Counts.{most_counted};
    ghost use Rattle.st_pool.specs.Settled.{AreSums, emptied_by, gone as gone_of};

    /// Empty books.
    pub(crate) fn open(blanks: Blanks) -> Books<K>
        requires posts { blanks.posts.name ≡ K.posts }
        requires edits { blanks.edits.name ≡ K.edits }
        requires steps { blanks.steps.name ≡ K.steps }
        requires emptied { blanks.emptied.name ≡ K.emptied }
        ensures { result ≡ no_books }
    {
        let Blanks {
            posts,
            edits,
            steps,
            emptied,
        } = blanks;
        let (posts, posts_left) = posts.open::<Posts<K>>();
        let (edits, edits_left) = edits.open::<Edits<K>>();
        let (steps, steps_left) = steps.open::<Steps<K>>();
        let (cleared, cleared_left) = emptied.open::<Emptied<K>>();
        Books {
            posts,
            edits,
            steps,
            cleared,
            posts_left,
            edits_left,
            steps_left,
            cleared_left,
            callers: 0,
            workers: 0,
            emptied: 0,
        }
    }

    /// How many callers there have been.
    pub(crate) fn callers(&self) -> u64
        ensures value { result ≡ self.now.callers }
        ensures few { result < 4294967296 }
    {
        let _workers = self.workers;
        self.callers
    }

    /// How many workers there have been.
    pub(crate) fn workers(&self) -> u64
        ensures value { result ≡ self.now.workers }
        ensures few { result < 4294967296 }
    {
        let _callers = self.callers;
        self.workers
    }

    /// How many items of histories checkpoints have emptied.
    pub(crate) fn emptied(&self) -> u64
        ensures value { result ≡ self.now.emptied }
        ensures few { result ≤ most_counted }
    {
        let _callers = self.callers;
        self.emptied
    }

    /// A share for one caller more.
    pub(crate) fn give(&mut self, alloc: Global) -> CallerShare<K>
        requires { self.old.callers + 1 < 4294967296 }
        ensures books { self.new ≡ record self.old { callers = self.old.callers + 1 } }
        ensures share { result ≡ nothing_done }
    {
        let posted = self.posts_left.split_off(1, 0);
        let edited = self.edits_left.split_off(1, 0);
        let cleared = self.cleared_left.split_off(1, 0);
        self.callers += 1;
        CallerShare {
            account: Account::new(alloc),
            room: Vec::new(alloc),
            posted,
            edited,
            cleared,
        }
    }

    /// A share for one worker more.
    pub(crate) fn employ(&mut self) -> WorkerShare<K>
        requires { self.old.workers + 1 < 4294967296 }
        ensures books { self.new ≡ record self.old { workers = self.old.workers + 1 } }
        ensures share { result ≡ 0 }
    {
        let ran = self.steps_left.split_off(1, 0);
        self.workers += 1;
        WorkerShare { steps: 0, ran }
    }

    /// Books a post if it was accepted. The books have at least what the two shares say.
    pub(crate) fn post(
        &mut self,
        posted: &mut Share<Posts<K>>,
        edited: &mut Share<Edits<K>>,
        is_accepted: bool,
    )
        requires some { (0 < posted.old.parts) × (0 < edited.old.parts) }
        ensures books { self.new ≡ record self.old { posts = self.old.posts + counted is_accepted } }
        ensures amount { posted.new.amount ≡ posted.old.amount + counted is_accepted }
        ensures parts { posted.new.parts ≡ posted.old.parts }
        ensures same { (edited.new.amount ≡ edited.old.amount) × (edited.new.parts ≡ edited.old.parts) }
        ensures posts { posted.old.amount ≤ self.old.posts }
        ensures edits { edited.old.amount ≤ self.old.edits }
    {
        self.posts.audit(posted);
        self.edits.audit(edited);
        if is_accepted {
            self.posts.add(posted, 1);
        }
    }

    /// Books an edit if the answer tells of one.
    pub(crate) fn edit(&mut self, mine: &mut CallerShare<K>, answer: &Result<Answer, Refusal>)
        requires { self.old.edits < 2 ^ 63 }
        ensures books { self.new ≡ record self.old { edits = self.old.edits + edits_by answer.now } }
        ensures share { mine.new ≡ record mine.old { edits = mine.old.edits + edits_by answer.now } }
        ensures within { mine.old.edits ≤ self.old.edits }
    {
        let CallerShare {
            account,
            edited,
            ..
        } = mine;
        self.edits.audit(edited);
        if let Ok(Answer::Version(_)) = answer {
            self.edits.add(edited, 1);
            account.edits += 1;
        }
    }

    /// Books the items that a caller's checkpoint has emptied.
    pub(crate) fn empty(&mut self, mine: &mut CallerShare<K>, count: u64)
        requires { self.old.emptied + count ≤ most_counted }
        ensures books { self.new ≡ record self.old { emptied = self.old.emptied + count } }
        ensures share { mine.new ≡ record mine.old { emptied = mine.old.emptied + count } }
    {
        let CallerShare {
            account,
            cleared,
            ..
        } = mine;
        self.cleared.audit(cleared);
        self.cleared.add(cleared, count);
        self.emptied += count;
        account.emptied += count;
    }

    /// Books the steps of a commit.
    pub(crate) fn run(&mut self, mine: &mut WorkerShare<K>, answer: &Result<u32, Refusal>)
        requires { self.old.steps < 2 ^ 63 }
        ensures books { self.new ≡ record self.old { steps = self.old.steps + committed answer.now } }
        ensures share { mine.new ≡ mine.old + committed answer.now }
        ensures within { mine.old ≤ self.old.steps }
    {
        let WorkerShare { steps, ran } = mine;
        self.steps.audit(ran);
        if let Ok(count) = answer {
            self.steps.add(ran, *count as u64);
            *steps += *count as u64;
        }
    }

    /// The books have at least what a caller has done.
    pub(crate) fn audit(&mut self, mine: &mut CallerShare<K>)
        ensures same { self.new ≡ self.old }
        ensures share { mine.new ≡ mine.old }
        ensures posts { length mine.old.receipts ≤ self.old.posts }
        ensures edits { mine.old.edits ≤ self.old.edits }
        ensures emptied { mine.old.emptied ≤ self.old.emptied }
    {
        let CallerShare {
            posted,
            edited,
            cleared,
            ..
        } = mine;
        self.posts.audit(posted);
        self.edits.audit(edited);
        self.cleared.audit(cleared);
    }

    /// The books have at least what a worker has done.
    pub(crate) fn audit_worker(&mut self, mine: &mut WorkerShare<K>)
        ensures same { self.new ≡ self.old }
        ensures share { mine.new ≡ mine.old }
        ensures steps { mine.old ≤ self.old.steps }
    {
        self.steps.audit(&mut mine.ran);
    }

    /// The totals of all shares, none of which is missing, and how many receipts have their items among those that were emptied. If
    /// there is room, it leaves there what each has done.
    pub(crate) fn close(
        self,
        callers: Vec<CallerShare<K>>,
        workers: Vec<WorkerShare<K>>,
        accounts: &mut Accounts,
    ) -> (Totals, u64)
        requires new { (accounts.old.callers.items ≡ []) × (accounts.old.workers.items ≡ []) }
        requires few { (self.posts < 2 ^ 63) × (self.edits < 2 ^ 63) × (self.steps < 2 ^ 63) }
        requires callers { vec_len callers ≡ self.callers }
        requires workers { vec_len workers ≡ self.workers }
        ensures sums { AreSums result.0 callers.items workers.items }
        ensures posts { result.0.posts ≡ self.posts }
        ensures edits { result.0.edits ≡ self.edits }
        ensures steps { result.0.steps ≡ self.steps }
        ensures gone { result.1 ≡ sum_by (gone_of self.emptied) callers.items }
        ensures emptied { self.emptied ≡ emptied_by callers.items }
        ensures callers { vec_len callers ≤ vec_capacity accounts.old.callers → accounts.new.callers.items ≡ callers.items }
        ensures workers { vec_len workers ≤ vec_capacity accounts.old.workers → accounts.new.workers.items ≡ workers.items }
    {
        let Books {
            mut posts,
            mut edits,
            mut steps,
            mut cleared,
            mut posts_left,
            mut edits_left,
            mut steps_left,
            mut cleared_left,
            emptied,
            ..
        } = self;
        let (posts_sum, edits_sum, gone_sum) = gather_callers(
            &mut posts,
            &mut edits,
            &mut posts_left,
            &mut edits_left,
            &mut cleared_left,
            emptied,
            callers,
            &mut accounts.callers,
        );
        accounts.callers.reverse();
        let steps_sum = gather_workers(&mut steps, &mut steps_left, workers, &mut accounts.workers);
        accounts.workers.reverse();
        posts.audit(&mut posts_left);
        edits.audit(&mut edits_left);
        steps.audit(&mut steps_left);
        cleared.audit(&mut cleared_left);
        let totals = Totals {
            posts: posts_sum,
            edits: edits_sum,
            steps: steps_sum,
        };
        (totals, gone_sum)
    }
}
