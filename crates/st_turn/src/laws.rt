//! The law that a claim survives edits which touch no selector that its steps used.
ghost use Rattle.st_turn.specs.Surviving.{ClaimsSurvive as LawOfSurvival};

/// If a claim survives at a class table, its steps are steps of that table too, although they were taken at an earlier one.
pub fn claims_survive()
    ensures { LawOfSurvival }
{}
