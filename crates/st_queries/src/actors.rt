//! The actors of an image, and where their turns stand.
ghost use Rattle.std.specs.Prelude.{◌≡◌, ◌+◌, ◌<◌, IfOk, length, option_map, slice_get};
ghost use Rattle.serde_json.specs.View.{view};
ghost use Rattle.st_classes.specs.EditLists.{method_at};
ghost use Rattle.st_queries.specs.Actors.{actor_told, actors_told, phase_told, running_method, running_told};

use crate::actor_snapshots::{ActorSnapshot, Stand};
use crate::listing::{Rows, list};
use crate::outcomes::outcome;
use crate::snapshots::Snapshot;
use crate::texts::class_text;
use crate::values::{Table, method_named};
use st_classes::names::Names;
use st_classes::values::MethodId;
use st_classes::version::Version;
use st_wire::told::{Members, Told};
use std::alloc::{AllocError, Global};

/// The phase of a turn.
fn phase(alloc: Global, names: &Names, version: &Version, stand: Stand) -> Result<Told, AllocError>
    ensures { IfOk result (λ told. view told ≡ phase_told names.now version.now stand) }
{
    match stand {
        Stand::Fresh => Told::word(alloc, "fresh"),
        Stand::Started => Told::word(alloc, "start"),
        Stand::Running(_) => Told::word(alloc, "frames"),
        Stand::Ended(ended) => outcome(alloc, Table { names, version }, ended),
    }
}

/// The class and the selector of an installed method.
fn method(
    alloc: Global,
    names: &Names,
    version: &Version,
    method: MethodId,
) -> Result<Told, AllocError>
    ensures { IfOk result (λ told. view told ≡ running_method names.now version.now (method_at version.now method)) }
{
    let Some(method) = version.method(method) else {
        return Ok(Told::nothing());
    };
    method_named(alloc, names, version, method.holder(), method.selector())
}

/// The method of the running frame, if there is one.
fn running(
    alloc: Global,
    names: &Names,
    version: &Version,
    stand: Stand,
) -> Result<Told, AllocError>
    ensures { IfOk result (λ told. view told ≡ running_told names.now version.now stand) }
{
    match stand {
        Stand::Running(id) => method(alloc, names, version, id),
        _ => Ok(Told::nothing()),
    }
}

/// An actor, by its number.
fn actor(
    alloc: Global,
    names: &Names,
    version: &Version,
    number: u64,
    actor_snapshot: ActorSnapshot,
) -> Result<Told, AllocError>
    ensures { IfOk result (λ told. view told ≡ actor_told names.now version.now number actor_snapshot) }
{
    let mut members = Members::new(alloc);
    members.put(alloc, "accepted", Told::whole(actor_snapshot.accepted))?;
    members.put(alloc, "actor", Told::whole(number))?;
    members.put(alloc, "begun", Told::whole(actor_snapshot.begun))?;
    members.put(
        alloc,
        "class",
        class_text(alloc, version, actor_snapshot.class)?,
    )?;
    members.put(alloc, "open", Told::truth(actor_snapshot.is_open))?;
    members.put(
        alloc,
        "phase",
        phase(alloc, names, version, actor_snapshot.stand)?,
    )?;
    members.put(
        alloc,
        "running",
        running(alloc, names, version, actor_snapshot.stand)?,
    )?;
    Ok(members.told())
}

/// The rows of the actors that are seen, of which the first has the number `from`.
#[derive(Drop)]
struct ActorRows<'a> {
    names: &'a Names,
    version: &'a Version,
    actor_snapshots: &'a [ActorSnapshot],
    from: u32,
}

impl<'a> Rows for ActorRows<'a> {
    ghost is_row = { λ a n. n < length a.actor_snapshots.now };

    ghost row_of = { λ a n. option_map (actor_told a.names.now a.version.now (a.from + n)) (slice_get a.actor_snapshots.now n) };

    fn row(&self, alloc: Global, number: u32) -> Result<Option<Told>, AllocError> {
        let actor_snapshot = self.actor_snapshots[number as usize];
        let place = u64::from(self.from) + u64::from(number);
        Ok(Some(actor(alloc, self.names, self.version, place, actor_snapshot)?))
    }
}

/// What is told of the actors that are seen, of which the first has the number `from`.
pub(crate) fn actors(alloc: Global, snapshot: &Snapshot, from: u32) -> Result<Told, AllocError>
    ensures { IfOk result (λ told. view told ≡ actors_told snapshot.now from) }
{
    let rows = ActorRows {
        names: &snapshot.names,
        version: snapshot.table.shown(),
        actor_snapshots: &snapshot.actor_snapshots,
        from,
    };
    let mut members = Members::new(alloc);
    members.put(
        alloc,
        "actors",
        list(alloc, &rows, 0, snapshot.actor_snapshots.len() as u32)?,
    )?;
    members.put(alloc, "count", Told::whole(snapshot.actors.into()))?;
    Ok(members.told())
}
