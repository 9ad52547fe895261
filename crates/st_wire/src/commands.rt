//! Commands, and how they are read from lines.
ghost use Rattle.std.specs.Prelude.{◌≡◌, Some};
ghost use Rattle.serde_json.specs.View.{view};
ghost use Rattle.st_classes.specs.Refusals.{Answers, first_of};
ghost use Rattle.st_wire.specs.PartResults.{Reads};
ghost use Rattle.st_wire.specs.Commands.{ReturnsMeanNothing, command_of, command_rules, command_in, form_in, define_in, method_in, replace_in, remove_in, reparent_in, new_actor_in, post_in, close_in, run_in, outcome_in, wait_in, stats_in, question_in, checkpoint_in, save_in};

use crate::fields::{actor_at, list_at, quanta_at, sender_at, text_at, whole_at};
use crate::keys::{has_just, just_keys};
use crate::queries::{Query, read_query};
use serde_json::{Category, Value};
use st_classes::refusals::Refusal;
use st_classes::seq::Seq;
use st_classes::values::ActorId;
use std::alloc::Global;

/// The quanta of a `run` that gives no number.
pub const DEFAULT_QUANTA: u32 = 1_000;

/// A value in a command. Names are texts: whether such a selector or class exists is not checked here.
#[derive(Drop)]
pub enum Argument {
    Int(i64),
    Bool(bool),
    Nil,
    Symbol(Seq<u8>),
    Class(Seq<u8>),
    Actor(ActorId),
}

/// A command.
#[derive(Drop)]
pub enum Command {
    /// A new class. On the wire the parent's key is `super`.
    Define {
        name: Seq<u8>,
        parent: Seq<u8>,
        slots: Seq<Seq<u8>>,
    },
    /// A method in a class.
    Method {
        class: Seq<u8>,
        source: Seq<u8>,
    },
    /// A method in a class, over the version that it has: that of the class's own method for the source's selector, and 0 if it has none.
    Replace {
        class: Seq<u8>,
        over: u32,
        source: Seq<u8>,
    },
    /// Removes the class's own method for a selector.
    Remove {
        class: Seq<u8>,
        selector: Seq<u8>,
    },
    /// Gives a class another superclass. On the wire the parent's key is `super`.
    Reparent {
        class: Seq<u8>,
        parent: Seq<u8>,
    },
    /// A new actor.
    Actor {
        class: Seq<u8>,
    },
    /// A message to an actor. `seq` is the sender's own number for it.
    Post {
        actor: ActorId,
        args: Seq<Argument>,
        selector: Seq<u8>,
        sender: u16,
        seq: u64,
    },
    /// Closes an actor's mailbox: it accepts no more messages.
    Close {
        actor: ActorId,
    },
    /// Takes quanta until no actor is ready, at most this number: from 1 to 1,000,000.
    Run {
        quanta: u32,
    },
    /// Asks how a turn of an actor ended.
    Outcome {
        actor: ActorId,
        turn: u64,
    },
    /// Asks the same, and waits for the end of the turn, this many milliseconds at most: 60,000 or less. The epoch is a text that was
    /// told.
    Wait {
        actor: ActorId,
        epoch: Seq<u8>,
        ms: u32,
        turn: u64,
    },
    /// Asks for the send sites of a method.
    Stats {
        class: Seq<u8>,
        selector: Seq<u8>,
    },
    /// Begins a new history with the current world.
    Checkpoint,
    /// Writes the image to its file.
    Save,
    /// Looks at the image.
    Query(Query),
}

/// The command of a line. The refusal is BadCommand if the line is not UTF-8 or not JSON, its keys are not those of one form, or a
/// value has the wrong kind or is out of its range.
pub fn read_command(alloc: Global, line: &[u8]) -> Result<Command, Refusal>
    ensures { Answers (first_of (command_rules line.now)) result
        (λ c. command_of line.now ≡ Some c) }
{
    match Value::from_slice(alloc, line) {
        Ok(object) => read_object(alloc, &object),
        Err(error) => Err(match error.classify() {
            Category::Memory => Refusal::NoMemory,
            _ => Refusal::BadCommand,
        }),
    }
}

/// A carriage return at the end of a line does not change its command.
pub fn returns_mean_nothing()
    ensures { ReturnsMeanNothing }
{}

fn read_object(alloc: Global, object: &Value) -> Result<Command, Refusal>
    ensures { Reads (command_in (view object.now)) result }
{
    match object.get("cmd").and_then(Value::as_str) {
        Some(name) => form(alloc, object, name),
        None => Err(Refusal::BadCommand),
    }
}

/// The command of the form that a name has.
fn form(alloc: Global, object: &Value, name: &str) -> Result<Command, Refusal>
    ensures { Reads (form_in (view object.now) name.now) result }
{
    match name {
        "define" => define(alloc, object),
        "method" => method(alloc, object),
        "replace" => replace(alloc, object),
        "remove" => remove(alloc, object),
        "reparent" => reparent(alloc, object),
        "actor" => new_actor(alloc, object),
        "post" => post(alloc, object),
        "close" => close(object),
        "run" => run(object),
        "checkpoint" => checkpoint(object),
        _ => question(alloc, object, name),
    }
}

/// The command of a form that changes nothing of an image, by its name.
fn question(alloc: Global, object: &Value, name: &str) -> Result<Command, Refusal>
    ensures { Reads (question_in (view object.now) name.now) result }
{
    match name {
        "outcome" => outcome(object),
        "wait" => wait(alloc, object),
        "stats" => stats(alloc, object),
        "save" => save(object),
        _ => Ok(Command::Query(read_query(alloc, object, name)?)),
    }
}

fn define(alloc: Global, object: &Value) -> Result<Command, Refusal>
    ensures { Reads (define_in (view object.now)) result }
{
    just_keys(object, &["cmd", "name", "slots", "super"])?;
    Ok(Command::Define {
        name: text_at(alloc, object, "name")?,
        parent: text_at(alloc, object, "super")?,
        slots: list_at(alloc, object, "slots")?,
    })
}

fn method(alloc: Global, object: &Value) -> Result<Command, Refusal>
    ensures { Reads (method_in (view object.now)) result }
{
    just_keys(object, &["class", "cmd", "source"])?;
    Ok(Command::Method {
        class: text_at(alloc, object, "class")?,
        source: text_at(alloc, object, "source")?,
    })
}

fn replace(alloc: Global, object: &Value) -> Result<Command, Refusal>
    ensures { Reads (replace_in (view object.now)) result }
{
    just_keys(object, &["class", "cmd", "over", "source"])?;
    Ok(Command::Replace {
        class: text_at(alloc, object, "class")?,
        over: whole_at(object, "over", 0, 4_294_967_295)? as u32,
        source: text_at(alloc, object, "source")?,
    })
}

fn remove(alloc: Global, object: &Value) -> Result<Command, Refusal>
    ensures { Reads (remove_in (view object.now)) result }
{
    just_keys(object, &["class", "cmd", "selector"])?;
    Ok(Command::Remove {
        class: text_at(alloc, object, "class")?,
        selector: text_at(alloc, object, "selector")?,
    })
}

fn reparent(alloc: Global, object: &Value) -> Result<Command, Refusal>
    ensures { Reads (reparent_in (view object.now)) result }
{
    just_keys(object, &["class", "cmd", "super"])?;
    Ok(Command::Reparent {
        class: text_at(alloc, object, "class")?,
        parent: text_at(alloc, object, "super")?,
    })
}

fn new_actor(alloc: Global, object: &Value) -> Result<Command, Refusal>
    ensures { Reads (new_actor_in (view object.now)) result }
{
    just_keys(object, &["class", "cmd"])?;
    Ok(Command::Actor {
        class: text_at(alloc, object, "class")?,
    })
}

fn post(alloc: Global, object: &Value) -> Result<Command, Refusal>
    ensures { Reads (post_in (view object.now)) result }
{
    just_keys(
        object,
        &["actor", "args", "cmd", "selector", "sender", "seq"],
    )?;
    Ok(Command::Post {
        actor: actor_at(object, "actor")?,
        args: list_at(alloc, object, "args")?,
        selector: text_at(alloc, object, "selector")?,
        sender: sender_at(object, "sender")?,
        seq: whole_at(object, "seq", 0, u64::MAX)?,
    })
}

fn close(object: &Value) -> Result<Command, Refusal>
    ensures { Reads (close_in (view object.now)) result }
{
    just_keys(object, &["actor", "cmd"])?;
    Ok(Command::Close {
        actor: actor_at(object, "actor")?,
    })
}

fn run(object: &Value) -> Result<Command, Refusal>
    ensures { Reads (run_in (view object.now)) result }
{
    if has_just(object, &["cmd"]) {
        return Ok(Command::Run {
            quanta: DEFAULT_QUANTA,
        });
    }
    just_keys(object, &["cmd", "quanta"])?;
    Ok(Command::Run {
        quanta: quanta_at(object, "quanta")?,
    })
}

fn outcome(object: &Value) -> Result<Command, Refusal>
    ensures { Reads (outcome_in (view object.now)) result }
{
    just_keys(object, &["actor", "cmd", "turn"])?;
    Ok(Command::Outcome {
        actor: actor_at(object, "actor")?,
        turn: whole_at(object, "turn", 0, u64::MAX)?,
    })
}

fn wait(alloc: Global, object: &Value) -> Result<Command, Refusal>
    ensures { Reads (wait_in (view object.now)) result }
{
    just_keys(object, &["actor", "cmd", "epoch", "ms", "turn"])?;
    Ok(Command::Wait {
        actor: actor_at(object, "actor")?,
        epoch: text_at(alloc, object, "epoch")?,
        ms: whole_at(object, "ms", 0, 60_000)? as u32,
        turn: whole_at(object, "turn", 0, u64::MAX)?,
    })
}

fn stats(alloc: Global, object: &Value) -> Result<Command, Refusal>
    ensures { Reads (stats_in (view object.now)) result }
{
    just_keys(object, &["class", "cmd", "selector"])?;
    Ok(Command::Stats {
        class: text_at(alloc, object, "class")?,
        selector: text_at(alloc, object, "selector")?,
    })
}

fn checkpoint(object: &Value) -> Result<Command, Refusal>
    ensures { Reads (checkpoint_in (view object.now)) result }
{
    just_keys(object, &["cmd"])?;
    Ok(Command::Checkpoint)
}

fn save(object: &Value) -> Result<Command, Refusal>
    ensures { Reads (save_in (view object.now)) result }
{
    just_keys(object, &["cmd"])?;
    Ok(Command::Save)
}
