//! The end of what lies under the lock: all shares are handed back.
use crate::accounts::Accounts;
use crate::naming::Naming;
use crate::pool_state::PoolState;
use crate::settling::{Shares, all_callers_stand, posts_in};
use crate::totals::Totals;
use st_classes::refusals::Refusal;
use st_image::image::Image;
use st_mailbox::mailboxes::Mailbox;

impl<K: Naming, M: Mailbox> PoolState<K, M> {
    ghost use Rattle.std.specs.Prelude.{◌≡◌, ◌⊎◌, ◌≤◌, [], OnOk, IfOk, IfErr, vec_capacity, vec_len};
    ghost use Rattle.st_classes.specs.declared.refusals.Refusal.TheVariants as refusals;
    ghost use Rattle.st_image.specs.GoingOn.{GoesOnIn};
    ghost use Rattle.st_pool.specs.Holds.{IsRun};
    ghost use Rattle.st_pool.specs.Settled.{AreAll, AllStand, AreCounts, AreFew, AreSums, emptied_by};

    /// The image, and what all threads have done together. If there is room, it leaves there what each has done. It is refused by
    /// `BadArguments` exactly if not all shares that were given out are here, and then by `Changed` exactly if the message of a receipt
    /// is not in the history at its place, or the items of more receipts are among the emptied ones than posts were emptied.
    pub(crate) fn settle(
        self,
        shares: Shares<K>,
        accounts: &mut Accounts,
    ) -> Result<(Image<M>, Totals), Refusal>
        requires new { (accounts.old.callers.items ≡ []) × (accounts.old.workers.items ≡ []) }
        ensures callers { OnOk result (vec_len shares.callers ≤ vec_capacity accounts.old.callers → accounts.new.callers.items ≡ shares.callers.items) }
        ensures workers { OnOk result (vec_len shares.workers ≤ vec_capacity accounts.old.workers → accounts.new.workers.items ≡ shares.workers.items) }
        ensures image { IfOk result (λ r. r.0 ≡ self.image) }
        ensures later { IfOk result (λ r. GoesOnIn K.first r.0) }
        ensures run { IfOk result (λ r. IsRun K.first (record { image = r.0; books = self.books })) }
        ensures sums { IfOk result (λ r. AreSums r.1 shares.callers.items shares.workers.items) }
        ensures counts { IfOk result (λ r. AreCounts K.start r.0 r.1) }
        ensures all { OnOk result (AreAll self.books shares.callers.items shares.workers.items) }
        ensures emptied { OnOk result (self.books.emptied ≡ emptied_by shares.callers.items) }
        ensures stand { IfOk result (λ r. AllStand self.books.emptied r.0 shares.callers.items × AreFew self.books.emptied r.0 r.1.posts shares.callers.items) }
        ensures named { IfErr result (λ e. (e ≡ refusals.BadArguments) ⊎ (e ≡ refusals.Changed)) }
        ensures refused { IfErr result (λ e. ((e ≡ refusals.BadArguments) × ¬ (AreAll self.books shares.callers.items shares.workers.items)) ⊎ ((e ≡ refusals.Changed) × AreAll self.books shares.callers.items shares.workers.items × ¬ (AllStand self.books.emptied self.image shares.callers.items × AreFew self.books.emptied self.image self.books.posts shares.callers.items))) }
    {
        let Shares { callers, workers } = shares;
        if callers.len() as u64 != self.books.callers()
            || workers.len() as u64 != self.books.workers()
        {
            drop((self, callers, workers));
            return Err(Refusal::BadArguments);
        }
        if !all_callers_stand(self.books.emptied(), self.image.history(), &callers) {
            drop((self, callers, workers));
            return Err(Refusal::Changed);
        }
        self.image.known();
        self.image.version().known();
        let PoolState { books, image, .. } = self;
        let (totals, gone) = books.close(callers, workers, accounts);
        if totals.posts.saturating_sub(posts_in(image.history())) < gone {
            drop(image);
            return Err(Refusal::Changed);
        }
        Ok((image, totals))
    }
}
