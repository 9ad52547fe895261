//! Tallies of a call site: how many sends it had, by how their targets were found.
ghost use Rattle.std.specs.Prelude.{◌≡◌, ◌<◌, ◌+◌, ◌^◌};
ghost use Rattle.st_turn.specs.Tallies.{no_tally, sends_of, with_act, with_send, with_sum};

use st_guard::how::How;
use st_sites::site::SiteState;

/// The sends of a call site, by how their targets were found.
#[derive(Clone, Copy, PartialEq, Eq, Debug)]
pub struct Tally {
    /// Sends whose target the call site had.
    pub by_site: u64,
    /// Sends whose target the lookup cache had.
    pub by_global: u64,
    /// Sends whose target a walk through the class table found, and all sends that the image did.
    pub by_walk: u64,
    /// The state of the site after the last send that a worker did.
    pub state: SiteState,
}

impl Tally {
    /// All sends.
    pub fn sends(&self) -> u64
        requires { sends_of self.now < 2 ^ 64 }
        ensures { result ≡ sends_of self.now }
    {
        self.by_site + self.by_global + self.by_walk
    }

    /// Nothing was sent.
    #[inline]
    pub fn none() -> Tally
        ensures { result ≡ no_tally }
    {
        Tally {
            by_site: 0,
            by_global: 0,
            by_walk: 0,
            state: SiteState::Empty,
        }
    }

    /// One more send of a worker's.
    #[inline(always)]
    pub fn add_send(&mut self, how: How, state: SiteState)
        requires { sends_of self.old + 1 < 2 ^ 64 }
        ensures { self.new ≡ with_send how state self.old }
    {
        self.state = state;
        if how == How::Site {
            self.by_site += 1;
            return;
        }
        self.add_rare(how);
    }

    /// One more send of a worker's. That its call site did not have the target is rare.
    #[cold]
    #[inline(never)]
    fn add_rare(&mut self, how: How)
        requires { sends_of self.old + 1 < 2 ^ 64 }
        ensures { self.new ≡ with_send how self.old.state self.old }
    {
        match how {
            How::Site => self.by_site += 1,
            How::Global => self.by_global += 1,
            How::Walk => self.by_walk += 1,
        }
    }

    /// One more send that the image did.
    #[inline]
    pub fn add_act(&mut self)
        requires { sends_of self.old + 1 < 2 ^ 64 }
        ensures { self.new ≡ with_act self.old }
    {
        self.by_walk += 1;
    }

    /// Adds the sends of a later tally to this one.
    #[inline]
    pub fn add_sum(&mut self, sum: &Tally)
        requires { sends_of self.old + sends_of sum.now < 2 ^ 64 }
        ensures { self.new ≡ with_sum sum.now self.old }
    {
        self.by_site += sum.by_site;
        self.by_global += sum.by_global;
        self.by_walk += sum.by_walk;
        self.state = sum.state;
    }
}
