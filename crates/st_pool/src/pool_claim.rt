//! A claim of a pool: one that knows the image of its checkout.
use crate::known_prefix::KnownPrefix;
use crate::naming::Naming;
use st_image::recycled::Recycled;
use st_turn::claim::Claim;
use std::alloc::Global;
use std::marker::Model;

/// A claim, and, if they are known, the images that were seen up to that of its checkout. Contracts see the claim.
#[derive(Drop)]
pub struct PoolClaim<K: Naming> {
    pub(crate) claim: Claim,
    pub(crate) seen: Option<KnownPrefix<K>>,
}

impl<K: Naming> Model for PoolClaim<K> {
    ghost use Rattle.std.specs.Option.{IfSome};
    ghost use Rattle.st_turn.specs.Claims.{ClaimView};
    ghost use Rattle.st_pool.specs.Seen.{Fits};

    ghost Value = { ClaimView };

    ghost view = { λ h. h.claim };

    ghost invariant = { λ h. IfSome h.seen (λ l. Fits l h.claim) };
}

impl<K: Naming> PoolClaim<K> {
    ghost use Rattle.std.specs.Prelude.{◌≡◌};

    /// The claim, which was run, makes the copy of its body with which the next one of the actor begins.
    pub(crate) fn prepare(&mut self, alloc: Global, recycled: &mut Recycled)
        ensures { self.new ≡ self.old }
    {
        recycled.prepare(alloc, &mut self.claim);
    }

    /// The claim.
    pub fn claim(&self) -> &Claim
        ensures { result.now ≡ self.now }
    {
        &self.claim
    }
}
