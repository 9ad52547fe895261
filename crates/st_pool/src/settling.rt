//! Settling: what all threads have done is what the history has.
ghost use Rattle.std.specs.Prelude.{◌≡◌, ℕ, ◌+◌, ◌<◌, ◌≤◌, ◌^◌, ◌⊎◌, [], All, Some, length, vec_capacity, vec_len, slice_get, IsTrue, ◌↔◌, MatchBool, OnOk, IfOk, IfErr};
ghost use Rattle.std.specs.Option.{IfSome};
ghost use Rattle.std.specs.List.{sum_by};
ghost use Rattle.st_classes.specs.declared.refusals.Refusal.TheVariants as refusals;
ghost use Rattle.st_image.specs.declared.history.Item.TheVariants.{Posted as PostedItem};
ghost use Rattle.st_image.specs.Counts.{posts_of, weigh};
ghost use Rattle.st_image.specs.GoingOn.{GoesOnIn};
ghost use Rattle.st_image.specs.Images.{ImageView};
ghost use Rattle.st_image.specs.WorldInvariant.{IsLawful};
ghost use Rattle.st_pool.specs.Books.{BooksView};
ghost use Rattle.st_pool.specs.Done.{Done, StandsIn};
ghost use Rattle.st_pool.specs.Holds.{IsRun};
ghost use Rattle.st_pool.specs.Settled.{AreAll, AllStand, AreCounts, AreFew, AreSums, HaveStood};

use crate::accounts::Accounts;
use crate::naming::Naming;
use crate::receipts::Receipt;
use crate::shared::Shared;
use crate::shares::{CallerShare, WorkerShare};
use crate::totals::Totals;
use st_classes::refusals::Refusal;
use st_classes::values::Value;
use st_image::history::Item;
use st_image::image::Image;
use st_mailbox::mailboxes::Mailbox;
use st_mailbox::messages::Message;

/// The shares that threads hand back: those of callers that have ended, and those that workers' loops answered.
#[derive(Drop)]
pub struct Shares<K: Naming> {
    pub callers: Vec<CallerShare<K>>,
    pub workers: Vec<WorkerShare<K>>,
}

/// Whether two lists of values are the same.
fn same_values(a: &[Value], b: &[Value]) -> bool
    ensures { IsTrue result ↔ (a.now ≡ b.now) }
{
    a == b
}

/// Whether two messages are the same.
fn same_message(a: &Message, b: &Message) -> bool
    ensures { IsTrue result ↔ (a.now ≡ b.now) }
{
    a.sender == b.sender
        && a.seq == b.seq
        && a.selector == b.selector
        && same_values(a.args.as_slice(), b.args.as_slice())
}

/// Whether the item at a place of a history is the message of a receipt.
fn stands_at(history: &[Item], place: u64, receipt: &Receipt) -> bool
    ensures { IsTrue result ↔ (slice_get history.now place ≡ Some (PostedItem receipt.now.actor receipt.now.message)) }
{
    match history.get(place as usize) {
        Some(Item::Posted { actor, message }) => {
            *actor == receipt.actor && same_message(message, &receipt.message)
        }
        _ => false,
    }
}

/// Whether the item of a receipt is one of the first `emptied` items, or is in the history at its place after these.
fn stands(emptied: u64, history: &[Item], receipt: &Receipt) -> bool
    ensures { IsTrue result ↔ StandsIn emptied history.now receipt.now }
{
    receipt.place < emptied || stands_at(history, receipt.place - emptied, receipt)
}

/// An item's posts.
fn posts_at(item: &Item) -> u64
    ensures value { result ≡ posts_of item.now }
    ensures few { result ≤ 1 }
{
    match item {
        Item::Posted { .. } => 1,
        _ => 0,
    }
}

/// How many posts a history has.
pub(crate) fn posts_in(history: &[Item]) -> u64
    ensures { result ≡ weigh posts_of history.now }
{
    let mut posts: u64 = 0;
    for item in history {
        posts += posts_at(item);
    }
    posts
}

/// Whether the item of each of these receipts was emptied or is in the history.
fn all_stand(emptied: u64, history: &[Item], receipts: &[Receipt]) -> bool
    ensures { IsTrue result ↔ All (StandsIn emptied history.now) receipts.now }
{
    receipts
        .iter()
        .all(|receipt| stands(emptied, history, receipt))
}

/// Whether the item of each receipt of these callers was emptied or is in the history.
pub(crate) fn all_callers_stand<K: Naming>(
    emptied: u64,
    history: &[Item],
    callers: &Vec<CallerShare<K>>,
) -> bool
    ensures { IsTrue result ↔ All (λ (d : Done). All (StandsIn emptied history.now) d.receipts) callers.now.items }
{
    callers
        .iter()
        .all(|share| all_stand(emptied, history, share.receipts()))
}

/// Room for the accounts of this many callers and workers, without memory if it is there already; or `None` if memory ran out.
fn emptied(room: Accounts, callers: usize, workers: usize) -> Option<Accounts>
    ensures new { IfSome result (λ r. (r.callers.items ≡ []) × (r.workers.items ≡ [])) }
    ensures enough { IfSome result (λ r. (callers ≤ vec_capacity r.callers) × (workers ≤ vec_capacity r.workers)) }
{
    let mut accounts = room;
    accounts.callers.clear();
    accounts.workers.clear();
    let is_enough = accounts.callers.reserve(callers).is_ok()
        && accounts.workers.reserve(workers).is_ok();
    if is_enough { Some(accounts) } else { None }
}

/// The image, and what all threads have done together. If there is room, it leaves there what each has done.
fn settle_in<K: Naming, M: Mailbox>(
    shared: Shared<K, M>,
    shares: Shares<K>,
    accounts: &mut Accounts,
) -> Result<(Image<M>, Totals), Refusal>
    requires new { (accounts.old.callers.items ≡ []) × (accounts.old.workers.items ≡ []) }
    ensures callers { OnOk result (vec_len shares.callers ≤ vec_capacity accounts.old.callers → accounts.new.callers.items ≡ shares.callers.items) }
    ensures workers { OnOk result (vec_len shares.workers ≤ vec_capacity accounts.old.workers → accounts.new.workers.items ≡ shares.workers.items) }
    ensures sums { IfOk result (λ r. AreSums r.1 shares.callers.items shares.workers.items) }
    ensures history { IfOk result (λ r. AreCounts K.start r.0 r.1 × HaveStood r.0 r.1.posts shares.callers.items) }
    ensures later { IfOk result (λ r. GoesOnIn K.first r.0) }
    ensures run { IfOk result (λ r. (b : BooksView) × IsRun K.first (record { image = r.0; books = b })) }
    ensures refused { IfErr result (λ e. (e ≡ refusals.BadArguments) ⊎ (e ≡ refusals.Changed)) }
{
    let Shared { pool, .. } = shared;
    pool.into_inner().settle(shares, accounts)
}

/// The image, what all threads have done together, once they have handed back their shares, and what each has done. The totals are the
/// sums over these accounts, and what the image has counted since the pool was made. The message of each receipt is in the history at
/// its place, posted to its actor, unless a checkpoint of these callers has emptied its item; and of the emptied items no more belong to
/// receipts than are posts. The image is what a list of events has made of the one that was shared: calls, claims that were handed out
/// and settled, and shares that were given out.
///
/// What `room` has is dropped, and its room is taken for the accounts; memory is taken only if it is not enough.
///
/// It is refused by `NoMemory` if memory ran out; by `BadArguments` if not all shares that were given out are here; and then by `Changed`
/// if the message of a receipt is not there, or more receipts have emptied items than posts were emptied. The image and the shares are
/// spent either way.
pub fn settle_image<K: Naming, M: Mailbox>(
    shared: Shared<K, M>,
    shares: Shares<K>,
    room: Accounts,
) -> Result<(Image<M>, Totals, Accounts), Refusal>
    ensures accounts { IfOk result (λ r. (r.2.callers.items ≡ shares.callers.items) × (r.2.workers.items ≡ shares.workers.items)) }
    ensures sums { IfOk result (λ r. AreSums r.1 r.2.callers.items r.2.workers.items) }
    ensures history { IfOk result (λ r. AreCounts K.start r.0 r.1 × HaveStood r.0 r.1.posts r.2.callers.items) }
    ensures later { IfOk result (λ r. GoesOnIn K.first r.0) }
    ensures run { IfOk result (λ r. (b : BooksView) × IsRun K.first (record { image = r.0; books = b })) }
    ensures refused { IfErr result (λ e. (e ≡ refusals.NoMemory) ⊎ (e ≡ refusals.BadArguments) ⊎ (e ≡ refusals.Changed)) }
{
    let Some(mut accounts) = emptied(room, shares.callers.len(), shares.workers.len()) else {
        drop((shared, shares));
        return Err(Refusal::NoMemory);
    };
    match settle_in(shared, shares, &mut accounts) {
        Ok((image, totals)) => Ok((image, totals, accounts)),
        Err(refusal) => Err(refusal),
    }
}

/// The totals of what all threads have done, once they have handed back their shares. No memory is taken.
///
/// It is refused by `BadArguments` if not all shares that were given out are here, and then by `Changed` as [`settle_image`] is. All is
/// spent either way.
pub fn settle<K: Naming, M: Mailbox>(
    shared: Shared<K, M>,
    shares: Shares<K>,
) -> Result<Totals, Refusal>
    ensures sums { IfOk result (λ t. AreSums t shares.callers.items shares.workers.items) }
    ensures history { IfOk result (λ t. (i : ImageView) × IsLawful i × GoesOnIn K.first i × AreCounts K.start i t × HaveStood i t.posts shares.callers.items) }
    ensures refused { IfErr result (λ e. (e ≡ refusals.BadArguments) ⊎ (e ≡ refusals.Changed)) }
{
    let alloc = *shares.callers.allocator();
    let mut none = Accounts {
        callers: Vec::new(alloc),
        workers: Vec::new(alloc),
    };
    let (image, totals) = settle_in(shared, shares, &mut none)?;
    image.known();
    Ok(totals)
}
