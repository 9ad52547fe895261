//! The sends of a claim: how many there were at each call site, and in what state each site was then.
//!
//! Contracts see the sends themselves, one by one and in order. Of those nothing is kept at run time but their sums by sites: whoever
//! counts the sends of a claim adds its sums.
ghost use Rattle.std.specs.Prelude.{◌≡◌, ◌<◌, ◌+◌, ◌++◌, ◌^◌, [], ◌∷◌, IsTrue, OnOk, length, slice_set};
ghost use Rattle.std.specs.Vec.{vec_len, vec_capacity};
ghost use Rattle.std.specs.List.{slice_index_or};
ghost use Rattle.std.specs.Option.{IfSome};
ghost use Rattle.st_turn.specs.Tallies.{AddsSend, AreLast, AreSums, IsLastOf, no_sum, bucket, sends_of, with_sent};

use crate::claim::Sent;
use crate::ghost_list::GhostList;
use crate::sums::SiteSum;
use st_classes::keys::SiteId;
use st_guard::how::How;
use st_sites::site::SiteState;
use std::alloc::{AllocError, Global};
use std::marker::Model;

/// How many hints there are where the last sum of a site lies.
const BUCKETS: usize = 512;

/// How many of the last sums are looked at where a hint is of another site.
const NEAR: usize = 64;

/// For how many sums room is made at once.
const MORE: usize = 16;

/// The sends of a claim. Contracts see them in order, and for how many more sums there is room.
#[derive(Drop)]
pub struct Sends {
    /// The sums, in the order in which their first sends came. If a site has several, the later ones have the later sends.
    sums: Vec<SiteSum>,
    /// A hint for each bucket: no sum of a site with this bucket lies behind that place.
    lasts: [usize; BUCKETS],
    /// The sends themselves, for proofs.
    all: GhostList<Sent>,
}

impl Model for Sends {
    ghost use Rattle.std.specs.Prelude.{◌-◌};
    ghost use Rattle.std.specs.Vec.{vec_len, vec_capacity};
    ghost use Rattle.st_turn.specs.Tallies.{AreLast, AreSums, SendsView};

    ghost Value = { SendsView };

    ghost view = { λ s. record { items = s.all.items; room = vec_capacity s.sums - vec_len s.sums } };

    ghost invariant = { λ s. AreSums s.sums.items s.all.items × AreLast s.lasts s.sums.items };
}

/// The bucket of a site. The sites of one method have different ones, if it has no more than 512 places.
#[inline(always)]
fn bucket_of(site: SiteId) -> usize
    ensures bucket { result ≡ bucket site }
    ensures few { result < 512 }
{
    (site.method.0 as usize * 167 + site.place as usize) % BUCKETS
}

/// Where the last sum of a site lies, if the hint of its bucket says so.
#[inline(always)]
fn place_of(sums: &[SiteSum], lasts: &[usize; BUCKETS], site: SiteId) -> Option<usize>
    requires { AreLast lasts.now sums.now }
    ensures { IfSome result (IsLastOf site sums.now) }
{
    let place = lasts[bucket_of(site)];
    if place < sums.len() && site == sums[place].site {
        return Some(place);
    }
    None
}

/// The same by looking at the last sums, of which there are `NEAR` at most.
fn place_among(sums: &[SiteSum], site: SiteId) -> Option<usize>
    ensures { IfSome result (IsLastOf site sums.now) }
{
    let first = sums.len().saturating_sub(NEAR);
    let mut place = sums.len();
    'search: while place > first {
        place -= 1;
        if site == sums[place].site {
            return Some(place);
        }
    }
    None
}

/// Adds a send to the sum at a place.
#[inline(always)]
fn add_at(sums: &mut Vec<SiteSum>, place: usize, sent: Sent)
    requires place { place < length sums.old.items }
    requires few { sends_of (slice_index_or sums.old.items place no_sum).tally + 1 < 2 ^ 64 }
    ensures items { sums.new.items ≡ slice_set sums.old.items place (with_sent sent (slice_index_or sums.old.items place no_sum)) }
    ensures len { vec_len sums.new ≡ vec_len sums.old }
    ensures capacity { vec_capacity sums.new ≡ vec_capacity sums.old }
{
    let sum = &mut sums[place];
    sum.add(sent);
}

/// Makes a sum of a send. The answer is whether there is room for another one.
fn add_sum(sums: &mut Vec<SiteSum>, lasts: &mut [usize; BUCKETS], sent: Sent) -> bool
    requires room { vec_len sums.old < vec_capacity sums.old }
    requires lasts { AreLast lasts.old sums.old.items }
    ensures adds { AddsSend sent sums.old.items sums.new.items }
    ensures lasts { AreLast lasts.new sums.new.items }
    ensures room { IsTrue result → vec_len sums.new < vec_capacity sums.new }
{
    lasts[bucket_of(sent.site)] = sums.len();
    sums.push_reserved(SiteSum::of(sent));
    sums.len() < sums.capacity()
}

impl Sends {
    /// No sends.
    pub(crate) fn new(alloc: Global) -> Sends
        ensures { result.items ≡ [] }
    {
        Sends {
            sums: Vec::new(alloc),
            lasts: [0; BUCKETS],
            all: GhostList::new(),
        }
    }

    /// Forgets the sends. The memory of the sums stays.
    pub(crate) fn clear(&mut self)
        ensures { self.new.items ≡ [] }
    {
        self.sums.clear();
        self.all = GhostList::new();
    }

    /// Makes room for another sum.
    #[inline]
    pub(crate) fn make_room(&mut self) -> Result<(), AllocError>
        ensures ok { OnOk result (0 < self.new.room) }
        ensures same { self.new.items ≡ self.old.items }
    {
        if self.has_room() {
            return Ok(());
        }
        self.sums.reserve(MORE)
    }

    /// Whether there is room for another sum.
    #[inline]
    pub(crate) fn has_room(&self) -> bool
        ensures { IsTrue result → 0 < self.now.room }
    {
        self.sums.len() < self.sums.capacity()
    }

    /// As `add`, for a site of which there is no hint: either it has no sum, or another site of its bucket had a sum made since. What is
    /// sent is passed in parts, so that it is not written to memory in the frequent case.
    #[cold]
    #[inline(never)]
    fn add_rare(&mut self, site: SiteId, how: How, state: SiteState) -> bool
        requires room { 0 < self.old.room }
        requires few { length self.old.items + 1 < 2 ^ 64 }
        ensures items { self.new.items ≡ self.old.items ++ record { site = site; how = how; state = state } ∷ [] }
        ensures room { IsTrue result → 0 < self.new.room }
    {
        let sent = Sent { site, how, state };
        let Sends { sums, lasts, all } = self;
        *all = all.and(&sent);
        if let Some(place) = place_among(sums, site) {
            add_at(sums, place, sent);
            return true;
        }
        add_sum(sums, lasts, sent)
    }

    /// Puts a send last. The answer is whether there is room for another sum.
    #[inline(always)]
    pub(crate) fn add(&mut self, site: SiteId, how: How, state: SiteState) -> bool
        requires room { 0 < self.old.room }
        requires few { length self.old.items + 1 < 2 ^ 64 }
        ensures items { self.new.items ≡ self.old.items ++ record { site = site; how = how; state = state } ∷ [] }
        ensures room { IsTrue result → 0 < self.new.room }
    {
        let Some(place) = place_of(self.sums.as_slice(), &self.lasts, site) else {
            return self.add_rare(site, how, state);
        };
        let sent = Sent { site, how, state };
        self.all = self.all.and(&sent);
        add_at(&mut self.sums, place, sent);
        true
    }

    /// The sums of the sends: one after the other, they change each tally of a site as the sends do.
    #[inline]
    pub fn sums(&self) -> &[SiteSum]
        ensures { AreSums result.now self.now.items }
    {
        self.sums.as_slice()
    }
}
