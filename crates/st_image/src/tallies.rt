//! Tallies of call sites: the sends that were committed.
ghost use Rattle.std.specs.Prelude.{◌≡◌, ◌<◌, ◌≤◌, ◌+◌, ◌^◌, ℕ, [], length, nat_lt, slice_set, true, None, OnOk, All};
ghost use Rattle.std.specs.List.{slice_index_or};
ghost use Rattle.st_classes.specs.declared.keys.SiteId.{SiteId as SiteIdOf};
ghost use Rattle.st_turn.specs.Tallies.{after_sums, no_tally, sends_of, with_act, with_sum};
ghost use Rattle.st_image.specs.Tallies.{ChangesTally, HasPlaces, KeepsPlaces, SameTallies, Summed, Tallied, has_place, tally_at};

use st_classes::keys::SiteId;
use st_classes::values::{MethodId, Selector};
use st_turn::sends::Sends;
use st_turn::sums::SiteSum;
use st_turn::tally::Tally;
use std::alloc::{AllocError, Global};
use std::marker::Model;

/// What is told of a call site.
#[derive(Clone, Copy, PartialEq, Eq, Debug)]
pub struct SiteStats {
    /// What is sent there.
    pub selector: Selector,
    /// Whether it is a super send.
    pub is_super: bool,
    pub tally: Tally,
}

/// The tallies of a method, by places of its code.
#[derive(Drop)]
struct TallyRow {
    tallies: Vec<Tally>,
}

impl Model for TallyRow {
    ghost use Rattle.std.specs.Prelude.{List};
    ghost use Rattle.st_turn.specs.declared.tally.Tally.{Tally as TallyOf};

    ghost Value = { List TallyOf };

    ghost view = { λ r. r.tallies.items };
}

impl TallyRow {
    fn new(alloc: Global) -> TallyRow
        ensures { result ≡ [] }
    {
        TallyRow {
            tallies: Vec::new(alloc),
        }
    }

    #[inline]
    fn at(&self, place: u16) -> Tally
        ensures { result ≡ slice_index_or self.now place no_tally }
    {
        match self.tallies.get(usize::from(place)) {
            Some(tally) => *tally,
            None => Tally::none(),
        }
    }

    /// Whether there is such a place.
    #[inline]
    fn has(&self, place: u16) -> bool
        ensures { result ≡ nat_lt place (length self.now) }
    {
        usize::from(place) < self.tallies.len()
    }

    /// Makes this many places, where there are fewer. No tally changes.
    fn make_places(&mut self, places: usize) -> Result<(), AllocError>
        ensures same { (i : ℕ) → slice_index_or self.new i no_tally ≡ slice_index_or self.old i no_tally }
        ensures keeps { (i : ℕ) → i < length self.old → i < length self.new }
        ensures ok { OnOk result (places ≤ length self.new) }
    {
        if self.tallies.len() < places {
            self.tallies.resize(places, Tally::none())?;
        }
        Ok(())
    }

    #[inline]
    fn add_sum(&mut self, place: u16, sum: &Tally)
        requires place { place < length self.old }
        requires few { sends_of (slice_index_or self.old place no_tally) + sends_of sum.now < 2 ^ 64 }
        ensures { self.new ≡ slice_set self.old place (with_sum sum.now (slice_index_or self.old place no_tally)) }
    {
        let tally = &mut self.tallies[usize::from(place)];
        tally.add_sum(sum);
    }

    #[inline]
    fn add_act(&mut self, place: u16)
        requires place { place < length self.old }
        requires few { sends_of (slice_index_or self.old place no_tally) + 1 < 2 ^ 64 }
        ensures { self.new ≡ slice_set self.old place (with_act (slice_index_or self.old place no_tally)) }
    {
        let tally = &mut self.tallies[usize::from(place)];
        tally.add_act();
    }
}

/// The tallies of call sites. Contracts see a list of rows by methods, each a list by places. Past their ends nothing was sent.
#[derive(Drop)]
pub(crate) struct Tallies {
    rows: Vec<TallyRow>,
}

impl Model for Tallies {
    ghost use Rattle.std.specs.Prelude.{List};
    ghost use Rattle.st_turn.specs.declared.tally.Tally.{Tally as TallyOf};

    ghost Value = { List (List TallyOf) };

    ghost view = { λ t. t.rows.items };
}

/// Makes rows for the methods up to one. No tally changes.
fn make_rows(rows: &mut Vec<TallyRow>, method: usize) -> Result<(), AllocError>
    requires { method < 2 ^ 32 }
    ensures same { (i : ℕ) → slice_index_or rows.new.items i [] ≡ slice_index_or rows.old.items i [] }
    ensures ok { OnOk result (method < length rows.new.items) }
{
    let alloc = *rows.allocator();
    'rows: while rows.len() <= method {
        rows.push(TallyRow::new(alloc))?;
    }
    Ok(())
}

/// Counts the sends that were summed at a site.
#[inline]
fn count_sum(rows: &mut [TallyRow], sum: &SiteSum)
    requires place { has_place rows.old sum.now.site ≡ true }
    requires few { sends_of (tally_at rows.old sum.now.site) + sends_of sum.now.tally < 2 ^ 64 }
    ensures tally { ChangesTally (with_sum sum.now.tally) sum.now.site rows.old rows.new }
    ensures keeps { KeepsPlaces rows.old rows.new }
{
    let row = &mut rows[sum.site.method.0 as usize];
    row.add_sum(sum.site.place, &sum.tally);
}

/// Counts sends by their sums, one after the other.
fn count_sums(rows: &mut [TallyRow], sums: &[SiteSum])
    requires places { All (λ m. has_place rows.old m.site ≡ true) sums.now }
    requires few { (id : SiteIdOf) → sends_of (after_sums id sums.now (tally_at rows.old id)) < 2 ^ 64 }
    ensures summed { Summed rows.old sums.now rows.new }
    ensures keeps { KeepsPlaces rows.old rows.new }
{
    for sum in sums {
        count_sum(rows, sum);
    }
}

impl Tallies {
    /// Nothing was sent.
    pub(crate) fn new(alloc: Global) -> Tallies
        ensures { result ≡ [] }
    {
        Tallies {
            rows: Vec::new(alloc),
        }
    }

    /// The tally of a call site.
    pub(crate) fn at(&self, site: SiteId) -> Tally
        ensures { result ≡ tally_at self.now site }
    {
        match self.rows.get(site.method.0 as usize) {
            Some(row) => row.at(site.place),
            None => Tally::none(),
        }
    }

    /// Makes this many places in the row of a method, where it has fewer. No tally changes.
    fn make_row(&mut self, method: MethodId, places: usize) -> Result<(), AllocError>
        ensures same { SameTallies self.old self.new }
        ensures keeps { KeepsPlaces self.old self.new }
        ensures ok { OnOk result (places ≤ length (slice_index_or self.new method.0 [])) }
    {
        let number = method.0 as usize;
        make_rows(&mut self.rows, number)?;
        let row = &mut self.rows[number];
        row.make_places(places)
    }

    /// Whether a site has a place.
    #[inline]
    fn has(&self, site: SiteId) -> bool
        ensures { result ≡ has_place self.now site }
    {
        match self.rows.get(site.method.0 as usize) {
            Some(row) => row.has(site.place),
            None => false,
        }
    }

    /// Makes a place for a site, where it has none. No tally changes.
    #[inline]
    fn make_place(&mut self, site: SiteId) -> Result<(), AllocError>
        ensures same { SameTallies self.old self.new }
        ensures keeps { KeepsPlaces self.old self.new }
        ensures ok { OnOk result (has_place self.new site ≡ true) }
    {
        if self.has(site) {
            return Ok(());
        }
        self.make_row(site.method, usize::from(site.place) + 1)
    }

    /// Makes a place for the site of each sum, where it has none. No tally changes.
    fn make_places(&mut self, sums: &[SiteSum]) -> Result<(), AllocError>
        ensures same { SameTallies self.old self.new }
        ensures ok { OnOk result (All (λ m. has_place self.new m.site ≡ true) sums.now) }
    {
        'sums: for place in 0..sums.len() {
            self.make_place(sums[place].site)?;
        }
        Ok(())
    }

    /// Makes a place for the site of each send of a claim, and for that of an act behind them, where they have none. So what there is to
    /// count with grows by the sites that send, and not by the methods that are installed. For want of memory it makes some of the
    /// places. No tally changes.
    pub(crate) fn make_room(&mut self, sends: &Sends, act: Option<SiteId>) -> Result<(), AllocError>
        ensures same { SameTallies self.old self.new }
        ensures ok { OnOk result (HasPlaces self.new sends.now.items act) }
    {
        self.make_places(sends.sums())?;
        match act {
            Some(site) => self.make_place(site),
            None => Ok(()),
        }
    }

    /// Counts an act.
    #[inline]
    fn count_act(&mut self, site: SiteId)
        requires place { has_place self.old site ≡ true }
        requires few { sends_of (tally_at self.old site) + 1 < 2 ^ 64 }
        ensures tally { ChangesTally with_act site self.old self.new }
        ensures keeps { KeepsPlaces self.old self.new }
    {
        let row = &mut self.rows[site.method.0 as usize];
        row.add_act(site.place);
    }

    /// Counts sends, by their sums.
    #[inline(always)]
    fn count_sends(&mut self, sends: &Sends)
        requires places { All (λ s. has_place self.old s.site ≡ true) sends.now.items }
        requires few { (id : SiteIdOf) → sends_of (tally_at self.old id) + length sends.now.items < 2 ^ 64 }
        ensures tallied { Tallied self.old sends.now.items None self.new }
        ensures keeps { KeepsPlaces self.old self.new }
    {
        count_sums(self.rows.as_mut_slice(), sends.sums());
    }

    /// Counts the sends of a claim, and an act behind them. No memory is taken.
    pub(crate) fn count(&mut self, sends: &Sends, act: Option<SiteId>)
        requires places { HasPlaces self.old sends.now.items act }
        requires few { (id : SiteIdOf) → sends_of (tally_at self.old id) + length sends.now.items + 1 < 2 ^ 64 }
        ensures tallied { Tallied self.old sends.now.items act self.new }
        ensures keeps { KeepsPlaces self.old self.new }
    {
        self.count_sends(sends);
        if let Some(site) = act {
            self.count_act(site);
        }
    }
}
