//! Laws of events. Each function here does nothing; its contract is the theorem.
ghost use Rattle.st_system.specs.Uncommitted.{LeavesNothing};

/// Uncommitted work leaves nothing in the image but turns that checkouts have begun.
#[tactic(auto, using(crate::proofs::Uncommitting::leaves_nothing))]
pub fn uncommitted_work_leaves_nothing()
    ensures { LeavesNothing }
{}
