//! Replies to queries.
ghost use Rattle.std.specs.Prelude.{◌≡◌, Result};
ghost use Rattle.serde_json.specs.Data.{Data};
ghost use Rattle.st_classes.specs.declared.refusals.Refusal.{Refusal as RefusalOf};
ghost use Rattle.st_queries.specs.Answers.{IsAnswer};
ghost use Rattle.st_queries.specs.Replying.{Looks, Says, TellsOf, TellsSeen};

use crate::answering::answer;
use crate::hosts::Host;
use crate::snapshots::{Snapshot, see};
use st_classes::refusals::Refusal;
use st_image::image::Image;
use st_mailbox::mailboxes::Mailbox;
use st_wire::queries::Query;
use st_wire::replies::Reply;
use st_wire::told::Told;
use std::alloc::{AllocError, Global};

/// The reply that says what was answered.
#[tactic(auto, using(crate::proofs::Saying::says_told, crate::proofs::Saying::says_nothing, crate::proofs::Saying::says_refused))]
fn reply_of(alloc: Global, answered: Result<Told, Refusal>) -> Reply
    ensures { (d : Result Data RefusalOf) → IsAnswer d answered → Says d result }
{
    match answered {
        Ok(told) => match told.ok(alloc) {
            Ok(told) => Reply::Told(told),
            Err(_) => Reply::Refused(Refusal::NoMemory),
        },
        Err(refusal) => Reply::Refused(refusal),
    }
}

/// The reply to a query, from what was seen for it.
pub fn tell(alloc: Global, snapshot: &Snapshot, host: Host, query: &Query) -> Reply
    ensures { TellsOf snapshot.now host query.now result }
{
    let answered = answer(alloc, snapshot, host, query);
    reply_of(alloc, answered)
}

/// The same; or that there was no memory to see what it needs.
pub fn tell_seen(
    alloc: Global,
    seen: Result<Snapshot, AllocError>,
    host: Host,
    query: Query,
) -> Reply
    ensures { TellsSeen seen host query result }
{
    match seen {
        Ok(snapshot) => tell(alloc, &snapshot, host, &query),
        Err(_) => Reply::Refused(Refusal::NoMemory),
    }
}

/// The reply to a query about an image.
pub fn look<M: Mailbox>(alloc: Global, image: &Image<M>, host: Host, query: Query) -> Reply
    ensures { Looks image.now host query result }
{
    let seen = see(alloc, image, &query);
    tell_seen(alloc, seen, host, query)
}
