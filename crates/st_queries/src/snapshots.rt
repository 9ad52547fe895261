//! What is seen of an image in one moment. It is copied under the lock, and the query is answered from it behind.
ghost use Rattle.std.specs.Prelude.{◌≡◌, ◌<◌, IfOk, length};
ghost use Rattle.st_image.specs.Images.{world};
ghost use Rattle.st_queries.specs.Snapshots.{ending_for as ending_by, failed_for as failed_by, actor_snapshots_for, inspected_for as inspected_by, snapshot};

use crate::actor_snapshots::{ActorSnapshot, actor_snapshots};
use crate::endings::{Ending, find_ending};
use crate::failed_turns::{FailedSince, failed_since};
use crate::inspecting::{Inspected, inspect};
use st_classes::names::Names;
use st_classes::seq::Seq;
use st_classes::token::Token;
use st_image::counts::Counts;
use st_image::image::Image;
use st_mailbox::mailboxes::Mailbox;
use st_wire::queries::Query;
use std::alloc::{AllocError, Global};
use std::marker::Model;

/// What a query is answered from: the names and the class table, which are shared and not copied; what is seen of those actors that are
/// asked for; a copy of the one that is inspected; the turns that failed; how the turn that is asked for ended; and some numbers.
#[derive(Drop)]
pub struct Snapshot {
    pub(crate) names: Names,
    pub(crate) table: Token,
    pub(crate) actor_snapshots: Vec<ActorSnapshot>,
    pub(crate) inspected: Option<Inspected>,
    pub(crate) failed: FailedSince,
    pub(crate) ending: Option<Ending>,
    pub(crate) actors: u32,
    pub(crate) failed_turns: u64,
    pub(crate) edits_made: u32,
    pub(crate) items: usize,
    pub(crate) most_items: u32,
    pub(crate) counts: Counts,
}

impl Model for Snapshot {
    ghost use Rattle.st_image.specs.CompiledEdits.{AllCompiled};
    ghost use Rattle.st_queries.specs.Snapshots.{Snapshot as SnapshotOf};

    ghost Value = { SnapshotOf };

    ghost view = { λ s. record { names = s.names; edits = s.table; actor_snapshots = s.actor_snapshots.items; inspected = s.inspected; failed = s.failed; ending = s.ending; actors = s.actors; failed_turns = s.failed_turns; edits_made = s.edits_made; items = s.items; most_items = s.most_items; counts = s.counts } };

    ghost use Rattle.std.specs.Prelude.{◌<◌, length};

    ghost invariant = { λ s. AllCompiled s.names s.table × (length s.actor_snapshots.items < 4294967296) };
}

/// What is seen of the actors that a query asks for.
fn asked_for<M: Mailbox>(
    alloc: Global,
    image: &Image<M>,
    query: &Query,
) -> Result<Vec<ActorSnapshot>, AllocError>
    ensures seen { IfOk result (λ seen. seen.items ≡ actor_snapshots_for query.now (world image.now).actors) }
    ensures few { IfOk result (λ seen. length seen.items < 4294967296) }
{
    match query {
        Query::Actors { from, most } => actor_snapshots(alloc, image, *from, *most),
        _ => Ok(Vec::new(alloc)),
    }
}

/// A copy of the actor that a query inspects, if there is one.
fn inspected_for<M: Mailbox>(
    alloc: Global,
    image: &Image<M>,
    query: &Query,
) -> Result<Option<Inspected>, AllocError>
    ensures { IfOk result (λ seen. seen ≡ inspected_by query.now (world image.now).actors) }
{
    match query {
        Query::Inspect { actor } => inspect(alloc, image, *actor),
        _ => Ok(None),
    }
}

/// The turns that failed behind the steps that a query names.
fn failed_for<M: Mailbox>(
    alloc: Global,
    image: &Image<M>,
    query: &Query,
) -> Result<FailedSince, AllocError>
    ensures { IfOk result (λ seen. seen ≡ failed_by query.now image.now) }
{
    match query {
        Query::Faults { after } => failed_since(alloc, image, *after),
        _ => Ok(FailedSince {
            from: 0,
            turns: Seq::from_vec(Vec::new(alloc)),
        }),
    }
}

/// How the turn ended that a query asks for.
fn ending_for<M: Mailbox>(
    alloc: Global,
    image: &Image<M>,
    query: &Query,
) -> Result<Option<Ending>, AllocError>
    ensures { IfOk result (λ seen. seen ≡ ending_by query.now image.now) }
{
    match query {
        Query::Fault { actor, turn } => Ok(Some(find_ending(alloc, image, *actor, *turn)?)),
        _ => Ok(None),
    }
}

/// What is seen of an image for a query. It takes the time of a copy of what is seen of the actors that are asked for, and for a turn that
/// failed that of at most a quantum of steps. It fails only if memory runs out.
pub fn see<M: Mailbox>(
    alloc: Global,
    image: &Image<M>,
    query: &Query,
) -> Result<Snapshot, AllocError>
    ensures { IfOk result (λ s. s ≡ snapshot image.now query.now) }
{
    image.all_compiled();
    Ok(Snapshot {
        names: image.names().again()?,
        table: image.token().again()?,
        actor_snapshots: asked_for(alloc, image, query)?,
        inspected: inspected_for(alloc, image, query)?,
        failed: failed_for(alloc, image, query)?,
        ending: ending_for(alloc, image, query)?,
        actors: image.actors(),
        failed_turns: image.failed_turns(),
        edits_made: image.edits_made(),
        items: image.history().len(),
        most_items: image.most_items(),
        counts: image.counted(),
    })
}
