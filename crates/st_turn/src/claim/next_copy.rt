//! The second copy of the body to which the steps of a claim lead.
ghost use Rattle.std.specs.Prelude.{◌≡◌, None};
ghost use Rattle.std.specs.Option.{IfSome, unwrap_or};
ghost use Rattle.st_turn.specs.Claims.{goes_on as claim_goes_on};

use crate::body::{Body, Phase};
use crate::claim::Claim;
use std::alloc::Global;

/// The next copy becomes a spare body: steps are taken, so it is no longer a copy.
#[inline(always)]
pub(crate) fn forget_next_copy(next_copy: &mut Option<Body>, spare: &mut Option<Body>)
    ensures { next_copy.new ≡ None }
{
    if next_copy.is_some() {
        spare_next_copy(next_copy, spare);
    }
}

/// The next copy becomes a spare body. This is a function apart, since few calls come here.
#[cold]
#[inline(never)]
fn spare_next_copy(next_copy: &mut Option<Body>, spare: &mut Option<Body>)
    ensures { next_copy.new ≡ None }
{
    if let Some(body) = next_copy.take() {
        drop(spare.replace(body));
    }
}

/// A copy of the body to which steps lead, if there is memory: the body before, where no copy of that was made yet. It takes the memory
/// of a spare body, if there is one.
fn copy_of(alloc: Global, before: &Body, after: &Option<Body>, spare: Option<Body>) -> Option<Body>
    ensures { IfSome result (λ copy. copy ≡ unwrap_or after.now before.now) }
{
    let copy = match after {
        Some(after) => after.copy_into(alloc, spare),
        None => before.copy_into(alloc, spare),
    };
    copy.ok()
}

impl Claim {
    /// Whether the turn is in a method and goes on with a step of the actor's own.
    pub fn goes_on(&self) -> bool
        ensures { result ≡ claim_goes_on self.now }
    {
        match self.after().phase {
            Phase::Frames(_) => !self.is_act_next(),
            _ => false,
        }
    }

    /// Makes a second copy of the body to which the steps lead, if there is memory. A commit leaves it to the image, whose next claim of
    /// the actor begins with it, so that no copy is made under a lock. It takes the memory of a spare body, if there is one.
    pub fn make_next_copy(&mut self, alloc: Global, spare: Option<Body>)
        ensures { self.new ≡ self.old }
    {
        let parts = &mut *self.parts;
        parts.next_copy = copy_of(alloc, &parts.before, &parts.after, spare);
    }
}
