//! The sends of a claim at one call site, summed.
ghost use Rattle.std.specs.Prelude.{◌≡◌, ◌<◌, ◌+◌, ◌^◌};
ghost use Rattle.st_turn.specs.Tallies.{sends_of, sum_of, with_sent};

use crate::claim::Sent;
use crate::tally::Tally;
use st_classes::keys::SiteId;

/// Sends of a claim at one call site, one after the other.
#[derive(Clone, Copy)]
pub struct SiteSum {
    pub site: SiteId,
    /// What they make of a tally to which nothing was sent.
    pub tally: Tally,
}

impl SiteSum {
    /// The sum of one send.
    #[inline]
    pub(crate) fn of(sent: Sent) -> SiteSum
        ensures { result ≡ sum_of sent }
    {
        let mut tally = Tally::none();
        tally.add_send(sent.how, sent.state);
        SiteSum {
            site: sent.site,
            tally,
        }
    }

    /// One send more of the site.
    #[inline(always)]
    pub(crate) fn add(&mut self, sent: Sent)
        requires { sends_of self.old.tally + 1 < 2 ^ 64 }
        ensures { self.new ≡ with_sent sent self.old }
    {
        self.tally.add_send(sent.how, sent.state);
    }
}
