//! How turns ended.
ghost use Rattle.std.specs.Prelude.{◌≡◌, IfOk};
ghost use Rattle.serde_json.specs.View.{view};
ghost use Rattle.st_queries.specs.Outcomes.{outcome_told};

use crate::listing::only;
use crate::values::{Table, value};
use st_turn::body::Outcome;
use st_wire::names::fault_name;
use st_wire::told::Told;
use std::alloc::{AllocError, Global};

/// What is told of how a turn ended.
pub(crate) fn outcome(alloc: Global, table: Table<'_>, outcome: Outcome) -> Result<Told, AllocError>
    ensures { IfOk result (λ told. view told ≡ outcome_told table.entry.names.now table.entry.version.now outcome) }
{
    match outcome {
        Outcome::Answer(answer) => only(
            alloc,
            "answer",
            value(alloc, table.names, table.version, answer)?,
        ),
        Outcome::Fault(fault) => only(alloc, "fault", Told::word(alloc, fault_name(fault))?),
    }
}
