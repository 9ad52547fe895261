//! Queries, and how they are read from the objects of lines.
ghost use Rattle.std.specs.Prelude.{◌∷◌, [], codes};
ghost use Rattle.serde_json.specs.View.{view};
ghost use Rattle.st_wire.specs.PartResults.{Reads};
ghost use Rattle.st_wire.specs.Fields.{text_at as text_in};
ghost use Rattle.st_wire.specs.Keys.{of_keys};
ghost use Rattle.st_wire.specs.declared.queries.Query.TheVariants as forms;
ghost use Rattle.st_wire.specs.Queries.{actors_in, edits_in, fault_in, faults_in, inspect_in, of_place, query_in, status_in};

use crate::fields::{actor_at, text_at, whole_at};
use crate::keys::just_keys;
use serde_json::Value;
use st_classes::refusals::Refusal;
use st_classes::seq::Seq;
use st_classes::values::ActorId;
use std::alloc::Global;

/// A question about an image. Its answer changes nothing.
#[derive(Drop)]
pub enum Query {
    /// All classes.
    Classes,
    /// The methods that a class has of its own.
    Methods { class: Seq<u8> },
    /// The source of what a send to an instance of the class runs.
    Source { class: Seq<u8>, selector: Seq<u8> },
    /// Every install and removal of a class's own method for a selector.
    Versions { class: Seq<u8>, selector: Seq<u8> },
    /// The classes that have a method of their own for a selector.
    Implementors { selector: Seq<u8> },
    /// The methods that send a selector.
    Senders { selector: Seq<u8> },
    /// The edits after the first ones, so many of which are left out; at most 256.
    Edits { from: u32 },
    /// The actors from a number on, at most this many: 1 to 4,096.
    Actors { from: u32, most: u32 },
    /// An actor, as an image file has it.
    Inspect { actor: ActorId },
    /// Where and by which message a turn of an actor failed; how it ended, where that is not kept.
    Fault { actor: ActorId, turn: u64 },
    /// The turns that failed behind a step, as far as they are kept.
    Faults { after: u64 },
    /// How much there is of what an image has.
    Status,
}

/// The class that a query names, if that and its name are its keys.
fn class_of(alloc: Global, object: &Value) -> Result<Seq<u8>, Refusal>
    ensures { Reads (of_keys (codes "class" ∷ codes "cmd" ∷ []) (view object.now) (text_in (codes "class") (view object.now))) result }
{
    just_keys(object, &["class", "cmd"])?;
    text_at(alloc, object, "class")
}

/// The selector that a query names, if that and its name are its keys.
fn selector_of(alloc: Global, object: &Value) -> Result<Seq<u8>, Refusal>
    ensures { Reads (of_keys (codes "cmd" ∷ codes "selector" ∷ []) (view object.now) (text_in (codes "selector") (view object.now))) result }
{
    just_keys(object, &["cmd", "selector"])?;
    text_at(alloc, object, "selector")
}

fn source(alloc: Global, object: &Value) -> Result<Query, Refusal>
    ensures { Reads (of_place forms.Source (view object.now)) result }
{
    just_keys(object, &["class", "cmd", "selector"])?;
    Ok(Query::Source {
        class: text_at(alloc, object, "class")?,
        selector: text_at(alloc, object, "selector")?,
    })
}

fn versions(alloc: Global, object: &Value) -> Result<Query, Refusal>
    ensures { Reads (of_place forms.Versions (view object.now)) result }
{
    just_keys(object, &["class", "cmd", "selector"])?;
    Ok(Query::Versions {
        class: text_at(alloc, object, "class")?,
        selector: text_at(alloc, object, "selector")?,
    })
}

fn edits(object: &Value) -> Result<Query, Refusal>
    ensures { Reads (edits_in (view object.now)) result }
{
    just_keys(object, &["cmd", "from"])?;
    Ok(Query::Edits {
        from: whole_at(object, "from", 0, 4_294_967_295)? as u32,
    })
}

fn actors(object: &Value) -> Result<Query, Refusal>
    ensures { Reads (actors_in (view object.now)) result }
{
    just_keys(object, &["cmd", "from", "most"])?;
    Ok(Query::Actors {
        from: whole_at(object, "from", 0, 4_294_967_295)? as u32,
        most: whole_at(object, "most", 1, 4_096)? as u32,
    })
}

fn inspect(object: &Value) -> Result<Query, Refusal>
    ensures { Reads (inspect_in (view object.now)) result }
{
    just_keys(object, &["actor", "cmd"])?;
    Ok(Query::Inspect {
        actor: actor_at(object, "actor")?,
    })
}

fn fault(object: &Value) -> Result<Query, Refusal>
    ensures { Reads (fault_in (view object.now)) result }
{
    just_keys(object, &["actor", "cmd", "turn"])?;
    Ok(Query::Fault {
        actor: actor_at(object, "actor")?,
        turn: whole_at(object, "turn", 0, u64::MAX)?,
    })
}

fn faults(object: &Value) -> Result<Query, Refusal>
    ensures { Reads (faults_in (view object.now)) result }
{
    just_keys(object, &["after", "cmd"])?;
    Ok(Query::Faults {
        after: whole_at(object, "after", 0, u64::MAX)?,
    })
}

fn status(object: &Value) -> Result<Query, Refusal>
    ensures { Reads (status_in (view object.now)) result }
{
    just_keys(object, &["cmd"])?;
    Ok(Query::Status)
}

/// The query of the form that a name has.
pub(crate) fn read_query(alloc: Global, object: &Value, name: &str) -> Result<Query, Refusal>
    ensures { Reads (query_in (view object.now) name.now) result }
{
    match name {
        "classes" => {
            just_keys(object, &["cmd"])?;
            Ok(Query::Classes)
        }
        "methods" => Ok(Query::Methods {
            class: class_of(alloc, object)?,
        }),
        "source" => source(alloc, object),
        "versions" => versions(alloc, object),
        "implementors" => Ok(Query::Implementors {
            selector: selector_of(alloc, object)?,
        }),
        "senders" => Ok(Query::Senders {
            selector: selector_of(alloc, object)?,
        }),
        "edits" => edits(object),
        "actors" => actors(object),
        "inspect" => inspect(object),
        "fault" => fault(object),
        "faults" => faults(object),
        "status" => status(object),
        _ => Err(Refusal::BadCommand),
    }
}
