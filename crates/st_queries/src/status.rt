//! An image's numbers.
ghost use Rattle.std.specs.Prelude.{◌≡◌, IfOk};
ghost use Rattle.serde_json.specs.View.{view};
ghost use Rattle.st_queries.specs.Status.{edits_left as left_of, status_told};

use crate::hosts::{Host, epoch};
use crate::snapshots::Snapshot;
use st_classes::limits::{EDITS, RUN_EDITS};
use st_wire::told::{Members, Told};
use std::alloc::{AllocError, Global};

/// How many edits there is room for, in the class table and in the run.
fn edits_left(snapshot: &Snapshot) -> u32
    ensures { result ≡ left_of snapshot.now }
{
    let table = (EDITS as u32).saturating_sub(snapshot.table.shown().edits());
    let run = (RUN_EDITS as u32).saturating_sub(snapshot.edits_made);
    table.min(run)
}

/// What is told of an image's numbers, and of the program that holds it.
pub(crate) fn status(alloc: Global, snapshot: &Snapshot, host: Host) -> Result<Told, AllocError>
    ensures { IfOk result (λ told. view told ≡ status_told snapshot.now host) }
{
    let version = snapshot.table.shown();
    let mut members = Members::new(alloc);
    members.put(alloc, "actors", Told::whole(snapshot.actors.into()))?;
    members.put(alloc, "classes", Told::whole(version.classes().into()))?;
    members.put(alloc, "edits", Told::whole(version.edits().into()))?;
    members.put(
        alloc,
        "edits_left",
        Told::whole(edits_left(snapshot).into()),
    )?;
    members.put(
        alloc,
        "epoch",
        Told::word(alloc, epoch(alloc, host)?.as_str())?,
    )?;
    members.put(alloc, "faults", Told::whole(snapshot.failed_turns))?;
    members.put(alloc, "history", Told::whole(snapshot.items as u64))?;
    members.put(
        alloc,
        "history_most",
        Told::whole(snapshot.most_items.into()),
    )?;
    members.put(alloc, "names", Told::whole(snapshot.names.len().into()))?;
    members.put(alloc, "posts", Told::whole(snapshot.counts.posts))?;
    members.put(alloc, "sessions", Told::whole(host.sessions))?;
    members.put(alloc, "steps", Told::whole(snapshot.counts.steps))?;
    members.put(alloc, "workers", Told::whole(host.workers))?;
    Ok(members.told())
}
