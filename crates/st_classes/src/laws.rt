//! Laws of lookup. Each function here does nothing; its contract is the theorem.
ghost use Rattle.st_classes.specs.LookupLaws.{LastDecides, TargetStands, WalkFinds};

/// The last edit that installs or removes in a class for a selector decides the class's own method. Without such an edit the kernel
/// does.
#[tactic(auto, using(crate::proofs::LawLookup::last_decides))]
pub fn last_edit_decides()
    ensures { LastDecides }
{}

/// A walk finds the method of the first class on the chain that has its own, and nothing if none has.
#[tactic(auto, using(crate::proofs::LawLookup::walk_finds))]
pub fn walk_finds_first()
    ensures { WalkFinds }
{}

/// The user's method that a send or a super send runs was installed for its selector in the first class on its way that has its
/// own, and no later edit installs or removes there. The same holds of the method for `doesNotUnderstand:`.
#[tactic(auto, using(crate::proofs::LawLookup::target_stands))]
pub fn target_stands()
    ensures { TargetStands }
{}
