//! What is answered to a query.
ghost use Rattle.std.specs.Prelude.{◌≡◌, ℕ, List, Option, Err, OnErr};
ghost use Rattle.st_classes.specs.declared.refusals.Refusal.TheVariants.{NoMemory};
ghost use Rattle.st_queries.specs.Answers.{IsAnswer, IsAnswerForSome, source_told, told_of};
ghost use Rattle.st_queries.specs.Edits.{edits_told};

use crate::actors::actors;
use crate::classes::classes;
use crate::edits::edits;
use crate::endings::Ending;
use crate::failed_turns::faults;
use crate::failing::tell_ending;
use crate::hosts::Host;
use crate::implementors::implementors;
use crate::inspecting::tell_inspected;
use crate::methods::methods;
use crate::offsets::offsets;
use crate::resolving::{class_of, selector_of};
use crate::senders::senders;
use crate::snapshots::Snapshot;
use crate::sources::source;
use crate::status::status;
use crate::values::Table;
use crate::versions::versions;
use st_classes::refusals::Refusal;
use st_wire::queries::Query;
use st_wire::told::Told;
use std::alloc::{AllocError, Global};

/// The offsets that are told of the frames of a turn that failed, where that is asked for.
fn offsets_for(
    alloc: Global,
    snapshot: &Snapshot,
    query: &Query,
) -> Result<Vec<Option<u16>>, AllocError>
    ensures { OnErr result ((host : Host) (offsets : List (Option ℕ)) → IsAnswer (told_of snapshot.now host offsets query.now) (Err NoMemory)) }
{
    match (query, &snapshot.ending) {
        (Query::Fault { actor: _, turn: _ }, Some(Ending::Failed(failing))) => {
            offsets(alloc, snapshot.table.shown(), &failing.body.phase)
        }
        _ => Ok(Vec::new(alloc)),
    }
}

/// What is answered to a query, where these offsets are told.
fn answer_at(
    alloc: Global,
    snapshot: &Snapshot,
    host: Host,
    offsets: &[Option<u16>],
    query: &Query,
) -> Result<Told, Refusal>
    ensures { IsAnswer (told_of snapshot.now host offsets.now query.now) result }
{
    let names = &snapshot.names;
    let version = snapshot.table.shown();
    match query {
        Query::Classes => Ok(classes(alloc, version)?),
        Query::Methods { class } => {
            let class = class_of(version, class.as_slice())?;
            Ok(methods(alloc, names, version, class)?)
        }
        Query::Source { class, selector } => {
            let class = class_of(version, class.as_slice())?;
            let selector = selector_of(names, selector.as_slice())?;
            source(alloc, names, version, class, selector)
        }
        Query::Versions { class, selector } => {
            let class = class_of(version, class.as_slice())?;
            let selector = selector_of(names, selector.as_slice())?;
            Ok(versions(alloc, names, version, class, selector)?)
        }
        Query::Implementors { selector } => {
            let selector = selector_of(names, selector.as_slice())?;
            Ok(implementors(alloc, version, selector)?)
        }
        Query::Senders { selector } => {
            let selector = selector_of(names, selector.as_slice())?;
            Ok(senders(alloc, names, version, selector)?)
        }
        Query::Edits { from } => {
            if version.edits() < *from {
                return Err(Refusal::BadArguments);
            }
            Ok(edits(alloc, names, version, *from)?)
        }
        Query::Actors { from, most: _ } => Ok(actors(alloc, snapshot, *from)?),
        Query::Inspect { actor: _ } => match &snapshot.inspected {
            Some(seen) => Ok(tell_inspected(alloc, Table { names, version }, seen)?),
            None => Err(Refusal::UnknownActor),
        },
        Query::Fault { actor: _, turn: _ } => {
            tell_ending(alloc, Table { names, version }, offsets, &snapshot.ending)
        }
        Query::Faults { after: _ } => Ok(faults(alloc, &snapshot.failed, snapshot.counts.steps)?),
        Query::Status => Ok(status(alloc, snapshot, host)?),
    }
}

/// What is answered to a query, from what was seen of an image for it.
///
/// `UnknownClass` says that no class has a name, and `BadName` that a text is no selector; a class is looked up before a selector.
/// `NoSuchMethod` says that an instance of the class does not understand the selector. A selector that was never interned is one that
/// no class has. `BadArguments` says that there are fewer edits than are to be left out, and `UnknownActor` that no actor has a number.
///
/// Where in their sources the sends of a turn's frames stand is told as far as it is known.
pub fn answer(
    alloc: Global,
    snapshot: &Snapshot,
    host: Host,
    query: &Query,
) -> Result<Told, Refusal>
    ensures { IsAnswerForSome (λ offsets. told_of snapshot.now host offsets query.now) result }
{
    match offsets_for(alloc, snapshot, query) {
        Ok(offsets) => answer_at(alloc, snapshot, host, offsets.as_slice(), query),
        Err(_) => Err(Refusal::NoMemory),
    }
}
