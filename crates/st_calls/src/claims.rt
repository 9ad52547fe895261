//! What is done with claims: the image goes on, and a claim that was handed out fits it.
ghost use Rattle.std.specs.Prelude.{◌≡◌, ◌⊎◌, None, Some, IfOk, IfErr, true};
ghost use Rattle.st_image.specs.Commits.{ChecksOut, Commits, IsReleased, Settles};
ghost use Rattle.st_image.specs.GoingOn.{FitsClaim, GoesOnIn};
ghost use Rattle.st_image.specs.Images.{world};
ghost use Rattle.st_calls.specs.Growth.{Grows, committed};

use st_classes::refusals::Refusal;
use st_classes::values::ActorId;
use st_image::image::Image;
use st_image::recycled::Recycled;
use st_mailbox::mailboxes::Mailbox;
use st_turn::claim::Claim;
use std::alloc::Global;

/// Hands out a claim, which fits the image. It takes the memory of what a commit left.
#[inline(always)]
pub fn check_out<M: Mailbox>(
    alloc: Global,
    image: &mut Image<M>,
    actor: ActorId,
    recycled: &mut Recycled,
) -> Result<Claim, Refusal>
    ensures takes { ChecksOut image.old actor result image.new }
    ensures fits { IfOk result (FitsClaim image.new) }
    ensures present { IfOk result (λ c. c.edits ≡ (world image.new).edits) }
    ensures later { GoesOnIn image.old image.new }
    ensures grows { Grows 0 0 0 image.old image.new }
{
    image.known();
    let answer = image.checkout_in(alloc, actor, recycled);
    image.known();
    answer
}

/// Commits a claim that fits the image. If the claim is handed back, it is unchanged. What the commit has no more use for is left.
#[inline(always)]
pub fn commit<M: Mailbox>(
    alloc: Global,
    image: &mut Image<M>,
    claim: Claim,
    recycled: &mut Recycled,
) -> Result<u32, (Refusal, Option<Claim>)>
    requires { FitsClaim image.old claim }
    ensures commits { Commits image.old claim result image.new }
    ensures back { IfErr result (λ refused. (refused.1 ≡ None) ⊎ (refused.1 ≡ Some claim)) }
    ensures later { GoesOnIn image.old image.new }
{
    image.known();
    let answer = image.commit_recycling(alloc, claim, recycled);
    image.known();
    answer
}

/// Gives a claim back.
pub fn release<M: Mailbox>(image: &mut Image<M>, claim: Claim)
    ensures released { IsReleased image.old claim.actor image.new }
    ensures later { GoesOnIn image.old image.new }
{
    image.release(claim);
}

/// Commits a claim. Nothing is compared if the claim is known to fit the image.
fn commit_any<M: Mailbox>(
    alloc: Global,
    image: &mut Image<M>,
    claim: Claim,
    is_known: bool,
    recycled: &mut Recycled,
) -> Result<u32, (Refusal, Option<Claim>)>
    requires { is_known ≡ true → FitsClaim image.old claim }
    ensures { Commits image.old claim result image.new }
{
    if is_known {
        return image.commit_recycling(alloc, claim, recycled);
    }
    image.commit(alloc, claim)
}

/// Commits a claim, and releases it if it is handed back.
#[inline(always)]
fn commit_or_release<M: Mailbox>(
    alloc: Global,
    image: &mut Image<M>,
    claim: Claim,
    is_known: bool,
    recycled: &mut Recycled,
) -> Result<u32, Refusal>
    requires { is_known ≡ true → FitsClaim image.old claim }
    ensures { Settles image.old claim result image.new }
{
    match commit_any(alloc, image, claim, is_known, recycled) {
        Ok(steps) => Ok(steps),
        Err((refusal, Some(claim))) => {
            image.release(claim);
            Err(refusal)
        }
        Err((refusal, None)) => Err(refusal),
    }
}

/// Commits a claim, and releases it if it is handed back. Nothing is compared if the claim is known to fit the image.
#[inline(always)]
pub fn settle<M: Mailbox>(
    alloc: Global,
    image: &mut Image<M>,
    claim: Claim,
    is_known: bool,
    recycled: &mut Recycled,
) -> Result<u32, Refusal>
    requires { is_known ≡ true → FitsClaim image.old claim }
    ensures settles { Settles image.old claim result image.new }
    ensures later { GoesOnIn image.old image.new }
    ensures grows { Grows 0 0 (committed result) image.old image.new }
{
    image.known();
    claim.known();
    let answer = commit_or_release(alloc, image, claim, is_known, recycled);
    image.known();
    answer
}
