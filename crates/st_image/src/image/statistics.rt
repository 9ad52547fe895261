//! Image::stats: the statistics of a method's call sites.
ghost use Rattle.std.specs.Prelude.{◌≡◌, slice_get};
ghost use Rattle.std.specs.Option.{option_copied};
ghost use Rattle.st_image.specs.Stats.{stats_with};

use crate::image::Image;
use crate::tallies::SiteStats;
use st_classes::counted_rows::{ClassRows, CountedRows};
use st_classes::instructions::Instruction;
use st_classes::kernel::Found;
use st_classes::keys::SiteId;
use st_classes::methods::Method;
use st_classes::refusals::Refusal;
use st_classes::values::{ClassId, MethodId, Selector};
use st_mailbox::mailboxes::Mailbox;
use st_turn::tally::Tally;
use std::alloc::{AllocError, Global};

/// The statistics of a send with a tally; none for another instruction.
fn stats_of(tally: Tally, instruction: Option<&Instruction>) -> Option<SiteStats>
    ensures { result ≡ stats_with tally (option_copied instruction.entry) }
{
    let (selector, is_super) = match instruction? {
        Instruction::Send(selector, _) => (*selector, false),
        Instruction::SuperSend(selector, _) => (*selector, true),
        _ => return None,
    };
    Some(SiteStats {
        selector,
        is_super,
        tally,
    })
}

/// The instruction at a place of a method's code, if there is one.
fn instruction_at(code: &[Instruction], place: usize) -> Option<&Instruction>
    ensures { option_copied result ≡ slice_get code.now place }
{
    code.get(place)
}

impl<M: Mailbox> Image<M> {
    ghost use Rattle.std.specs.Prelude.{◌≡◌, All, true, IfOk};
    ghost use Rattle.std.specs.List.{filter_map};
    ghost use Rattle.st_classes.specs.Classes.{is_class};
    ghost use Rattle.st_classes.specs.Refusals.{first_of};
    ghost use Rattle.st_image.specs.Calls.{AnswersExactly};
    ghost use Rattle.st_image.specs.Images.{world};
    ghost use Rattle.st_image.specs.Stats.{HasCounted, HasFewSends, installed_own, method_stats, site_stats, stats_rules};

    /// The user's method of a class for a selector, if there is one.
    fn installed(&self, class: ClassId, selector: Selector) -> Option<MethodId>
        requires { is_class (world self.now).edits class ≡ true }
        ensures { result ≡ installed_own (world self.now).edits class selector }
    {
        match CountedRows::new(self.version()).read(class, selector).own {
            Some(Found::User(id)) => Some(id),
            _ => None,
        }
    }

    /// The statistics of the send at a place of a method, if there is one.
    fn site_stats(&self, id: MethodId, method: &Method, place: u16) -> Option<SiteStats>
        ensures { result ≡ site_stats self.now.standing.tallies id method.now.code place }
    {
        let tally = self.tallies.at(SiteId { method: id, place });
        stats_of(tally, instruction_at(method.code(), usize::from(place)))
    }

    /// The statistics of a method's sites.
    fn method_sites(
        &self,
        alloc: Global,
        id: MethodId,
        method: &Method,
    ) -> Result<Vec<SiteStats>, AllocError>
        ensures { IfOk result (λ list. list.items ≡ filter_map (site_stats self.now.standing.tallies id method.now.code) method.now.sites) }
    {
        let mut list = Vec::new(alloc);
        'sites: for place in method.sites() {
            if let Some(told) = self.site_stats(id, method, *place) {
                list.push(told)?;
            }
        }
        Ok(list)
    }

    /// The statistics of the method that a class has of its own for a selector.
    fn told(
        &self,
        alloc: Global,
        class: ClassId,
        selector: Selector,
    ) -> Result<Vec<SiteStats>, Refusal>
        ensures { AnswersExactly (first_of (stats_rules self.now class selector)) result (λ list. list.items ≡ method_stats self.now (installed_own (world self.now).edits class selector)) }
    {
        if !self.version().is_class(class) {
            return Err(Refusal::UnknownClass);
        }
        let Some(id) = self.installed(class, selector) else {
            return Err(Refusal::NoSuchMethod);
        };
        let Some(method) = self.version().method(id) else {
            return Ok(Vec::new(alloc));
        };
        Ok(self.method_sites(alloc, id, method)?)
    }

    /// The tallies count the sends of the history: the sends of each site are its send steps in the history, by the definitions of a
    /// step.
    pub fn sends_counted(&self)
        ensures { HasCounted self.now }
    {
        let _tallies = &self.tallies;
    }

    /// The statistics, since the last checkpoint, of the call sites of the method that a class has of its own for a selector, in the order
    /// of its code: the committed sends, how their targets were found, and the state of the site after the last send that used a worker's
    /// caches. The sends of a site are below 2^64.
    ///
    /// Refusals, in this order: `UnknownClass`; `NoSuchMethod` if the class has no method of its own for the selector, or one of the
    /// kernel's. Memory can run out only if neither applies.
    pub fn stats(
        &self,
        alloc: Global,
        class: ClassId,
        selector: Selector,
    ) -> Result<Vec<SiteStats>, Refusal>
        ensures answers { AnswersExactly (first_of (stats_rules self.now class selector)) result (λ list. list.items ≡ method_stats self.now (installed_own (world self.now).edits class selector)) }
        ensures few { IfOk result (λ list. All HasFewSends list.items) }
    {
        self.known();
        self.sends_counted();
        self.told(alloc, class, selector)
    }
}
