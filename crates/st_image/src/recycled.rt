//! What commits and checkouts leave.
ghost use Rattle.std.specs.Prelude.{◌≡◌};

use st_classes::token::Token;
use st_turn::body::Body;
use st_turn::claim::{Claim, ClaimParts};
use std::alloc::Global;

/// What a commit has no more use for: the claim without the body to which its steps led, and the body that the actor had. Where the turn
/// ended with a fault the claim is kept, and that of the failure which is kept no longer is left, if there is one. The next
/// checkout takes the memory of the claim, and of the body if it makes a copy and that fits; if not, the copy at the end of the next
/// quantum may take it. A checkout leaves the rest, and the token that the claim had. To let something go takes time, so who holds a
/// lock on the image does that after it.
#[derive(Drop)]
pub struct Recycled {
    pub(crate) claim: Option<Box<ClaimParts>>,
    pub(crate) body: Option<Body>,
    pub(crate) token: Option<Token>,
}

impl Recycled {
    /// Nothing is left yet.
    pub fn none() -> Recycled {
        Recycled {
            claim: None,
            body: None,
            token: None,
        }
    }

    /// Lets go what no checkout took.
    pub fn let_go(&mut self) {
        drop(self.token.take());
        drop(self.body.take());
        drop(self.claim.take());
    }

    /// Lets go what no checkout took, but not the body.
    pub fn let_go_but_body(&mut self) {
        drop(self.token.take());
        drop(self.claim.take());
    }

    /// A claim that was run makes the copy of its body with which the next one of the actor begins, if the turn goes on. It takes the
    /// memory of the body that an actor had, if that fits; nothing is left of that body then.
    pub fn prepare(&mut self, alloc: Global, claim: &mut Claim)
        ensures { claim.new ≡ claim.old }
    {
        let spare = self.spare_for(claim.after());
        drop(self.body.take());
        if claim.goes_on() {
            claim.make_next_copy(alloc, spare);
        }
    }

    /// The body that an actor had, if a copy of another one finds room in its memory. Otherwise it stays, to be let go later.
    pub(crate) fn spare_for(&mut self, body: &Body) -> Option<Body> {
        match &self.body {
            Some(spare) if body.fits_in(spare) => self.body.take(),
            _ => None,
        }
    }
}
