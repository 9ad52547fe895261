//! Laws of what queries answer.
ghost use Rattle.st_queries.specs.QueryLaws.{SourceIsRun};

/// A law: `source` tells of the method that a send to an instance of the class runs, which is the one that the walk up the superclass
/// chain finds.
#[tactic(auto, using(crate::proofs::Held::source_is_run))]
pub fn source_is_run()
    ensures { SourceIsRun }
{}
