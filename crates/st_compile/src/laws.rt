//! Laws of the instructions of expressions.
ghost use Rattle.st_compile.specs.FlowLaws.{CodesLeaveOne};

/// A law about the instructions of an expression, whatever its names mean. On each path through them no instruction lacks an
/// operand, and each successor is one of them or their end. A path that reaches the end has left one more operand, also through an
/// inlined conditional. A path that comes back to the beginning, as a loop does after its body, has as many operands as before.
#[tactic(auto, using(crate::proofs::Leaving::codes_leave_one))]
pub fn codes_leave_one()
    ensures { CodesLeaveOne }
{}
