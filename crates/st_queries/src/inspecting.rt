//! One actor: what an image file has of it, and the number of its turn.
ghost use Rattle.std.specs.Prelude.{◌≡◌, IfOk, option_map, slice_get};
ghost use Rattle.serde_json.specs.View.{view};
ghost use Rattle.st_image.specs.Images.{world};
ghost use Rattle.st_queries.specs.Inspecting.{inspected_of, inspected_told, number_told, turn_in};

use crate::bodies::body;
use crate::listing::each;
use crate::texts::class_text;
use crate::values::Table;
use st_classes::refusals::Refusal;
use st_classes::values::ActorId;
use st_image::actor_part::ActorPart;
use st_image::image::Image;
use st_mailbox::mailboxes::Mailbox;
use st_turn::body::{Body, Phase};
use st_wire::told::{Members, Told};
use std::alloc::{AllocError, Global};

/// What is copied of an actor.
#[derive(Drop)]
pub struct Inspected {
    pub part: ActorPart,
    /// The number of the turn that stands in its body, if one has begun.
    pub turn: Option<u64>,
}

/// The number of the turn that stands in a body, where so many were begun.
fn turn_of(body: &Body, begun: u64) -> Option<u64>
    ensures { result ≡ turn_in body.now.phase begun }
{
    match body.phase {
        Phase::Fresh => None,
        _ => Some(begun),
    }
}

/// Copies an actor, if there is one with this number.
pub(crate) fn inspect<M: Mailbox>(
    alloc: Global,
    image: &Image<M>,
    actor: ActorId,
) -> Result<Option<Inspected>, AllocError>
    ensures { IfOk result (λ seen. seen ≡ option_map inspected_of (slice_get (world image.now).actors actor.0)) }
{
    image.known();
    let (Some(accepted), Some(mailbox)) = (image.accepted(actor), image.mailbox(actor)) else {
        return Ok(None);
    };
    let begun = accepted - u64::from(mailbox.len());
    match image.part(alloc, actor) {
        Ok(part) => {
            let turn = turn_of(&part.body, begun);
            Ok(Some(Inspected { part, turn }))
        }
        Err(_) => Err(AllocError),
    }
}

/// The number of a turn, or null.
fn number(turn: Option<u64>) -> Told
    ensures { view result ≡ number_told turn }
{
    match turn {
        Some(turn) => Told::whole(turn),
        None => Told::nothing(),
    }
}

/// What is told of an actor.
pub(crate) fn tell_inspected(
    alloc: Global,
    table: Table<'_>,
    seen: &Inspected,
) -> Result<Told, AllocError>
    ensures { IfOk result (λ told. view told ≡ inspected_told table.entry.names.now table.entry.version.now seen.now) }
{
    let part = &seen.part;
    let mut members = Members::new(alloc);
    members.put(alloc, "body", body(alloc, table, &part.body)?)?;
    members.put(alloc, "capacity", Told::whole(part.capacity.into()))?;
    members.put(
        alloc,
        "class",
        class_text(alloc, table.version, part.class)?,
    )?;
    members.put(alloc, "last", Told::whole(part.last))?;
    members.put(alloc, "open", Told::truth(part.is_open))?;
    members.put(
        alloc,
        "pending",
        each(alloc, &table, part.pending.as_slice())?,
    )?;
    members.put(alloc, "turn", number(seen.turn))?;
    Ok(members.told())
}
