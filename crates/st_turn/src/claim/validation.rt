//! Which selectors the steps of a claim used, and whether it survives.
ghost use Rattle.std.specs.Prelude.{◌≡◌, ◌==◌, ◌||◌, ◌↔◌, IsTrue, Bool, drop, length};
ghost use Rattle.std.specs.List.{list_any};
ghost use Rattle.st_classes.specs.Kernel.{does_not_understand};
ghost use Rattle.st_classes.specs.EditLists.{Begins};
ghost use Rattle.st_turn.specs.Claims.{used};
ghost use Rattle.st_turn.specs.Surviving.{SurvivesAt, touches_used};
ghost use Rattle.st_turn.specs.UsedSelectors.{first_touched, touches_asked, touches_from};

use crate::body::Phase;
use crate::claim::Claim;
use crate::sums::SiteSum;
use st_classes::edits::Edit;
use st_classes::instructions::Instruction;
use st_classes::kernel::DOES_NOT_UNDERSTAND;
use st_classes::keys::SiteId;
use st_classes::values::Selector;
use st_classes::version::Version;

/// Whether an edit that is for a selector touches another one.
fn touches_other(selector: Selector, other: Selector) -> bool
    ensures { result ≡ touches_from selector other }
{
    selector == other || selector == DOES_NOT_UNDERSTAND
}

/// Whether an edit that is for a selector touches the one that a site asks for.
fn touches_site(version: &Version, site: SiteId, selector: Selector) -> bool
    ensures { result ≡ touches_asked version.now selector site }
{
    let Some(method) = version.method(site.method) else {
        return false;
    };
    match method.code().get(site.place as usize) {
        Some(Instruction::Send(asked, _) | Instruction::SuperSend(asked, _)) => {
            touches_other(selector, *asked)
        }
        _ => false,
    }
}

/// Whether an edit that is for a selector touches one that is sent at a site of these sums.
fn touches_some(version: &Version, sums: &[SiteSum], selector: Selector) -> bool
    ensures { result ≡ list_any (λ m. touches_asked version.now selector m.site) sums.now }
{
    sums.iter()
        .any(|sum| touches_site(version, sum.site, selector))
}

impl Claim {
    /// Whether an edit of a selector touches the first message of the turn, if the steps dispatched that message.
    fn is_first_touched(&self, selector: Selector) -> bool
        ensures { result ≡ first_touched selector self.now.steps self.now.before.phase }
    {
        if self.parts.steps == 0 {
            return false;
        }
        match &self.parts.before.phase {
            Phase::Start {
                selector: first,
                ..
            } => touches_other(selector, *first),
            _ => false,
        }
    }

    /// Whether an edit that is for a selector touches one that was sent.
    fn is_send_touched(&self, selector: Selector) -> bool
        ensures { result ≡ list_any (λ s. touches_asked self.now.edits selector s.site) self.now.sends }
    {
        touches_some(self.parts.token.shown(), self.parts.sends.sums(), selector)
    }

    /// Whether an edit that is for a selector touches one that the steps used.
    fn is_used(&self, selector: Selector) -> bool
        ensures { result ≡ list_any (touches_from selector) (used self.now) }
    {
        self.known();
        self.is_first_touched(selector) || self.is_send_touched(selector)
    }

    /// Whether an edit touches a selector that the steps used.
    fn is_touched_by(&self, edit: &Edit) -> bool
        ensures { result ≡ touches_used self.now edit.now }
    {
        match edit {
            Edit::Define { .. } => false,
            Edit::Install { method, .. } => self.is_used(method.selector()),
            Edit::Remove { selector, .. } => self.is_used(*selector),
            // It touches every selector, as one for `doesNotUnderstand:` does.
            Edit::Reparent { .. } => self.is_used(DOES_NOT_UNDERSTAND),
        }
    }

    /// Whether one of the edits of a version from a place on touches a selector that the steps used.
    fn is_touched_from(&self, version: &Version, first: u32) -> bool
        ensures { result ≡ list_any (touches_used self.now) (drop first version.now) }
    {
        let edits = version.edits();
        let mut place = first;
        'later: while place < edits {
            let Some(edit) = version.edit(place) else {
                return false;
            };
            if self.is_touched_by(edit) {
                return true;
            }
            place += 1;
        }
        false
    }

    /// Whether the claim survives at a later version, one whose list of edits has the claim's as a prefix: no later edit touches a
    /// selector that its steps used. Only the later edits are looked at.
    pub fn survives(&self, version: &Version) -> bool
        requires { Begins self.now.edits version.now }
        ensures { IsTrue result ↔ SurvivesAt version.now self.now }
    {
        !self.is_touched_from(version, self.parts.token.shown().edits())
    }
}
