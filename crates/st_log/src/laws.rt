//! Laws of whole lines. Each function here does nothing; its contract is the theorem.
ghost use Rattle.st_log.specs.Lines.{AreWholeLines};

/// Where a line stands at the front of a text, the whole lines of the text are that line and the whole lines of the rest. Else there
/// are none.
#[tactic(auto, using(crate::proofs::LinesLaw::whole_lines_law))]
pub fn whole_lines_are_lines()
    ensures { AreWholeLines }
{}
