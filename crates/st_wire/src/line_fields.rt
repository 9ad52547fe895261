//! What is at the keys of a line's object.
ghost use Rattle.std.specs.Prelude.{◌≡◌, ◌+◌, ◌<◌, ◌≤◌, length, None, Some, OnOk, IfOk, IfSome};
ghost use Rattle.serde_json.specs.Data.{Data, Members, no_members, put};
ghost use Rattle.st_wire.specs.LineFields.{IsFoundIn};
ghost use Rattle.st_wire.specs.Tokens.{BeginsWith, BeginsWithMembers};

use crate::commands::Argument;
use crate::misses::Miss;
use crate::tokens::{read_arguments, read_text};
use crate::values::read_whole;
use json::Reader;
use st_classes::seq::Seq;
use std::alloc::Global;

/// The most keys of a command.
const MOST_KEYS: usize = 6;

/// What was found at the keys of a line's object, and the number of keys.
#[derive(Drop)]
pub(crate) struct LineFields<'a> {
    pub(crate) count: usize,
    pub(crate) actor: Option<u64>,
    pub(crate) args: Option<Seq<Argument>>,
    pub(crate) class: Option<&'a str>,
    pub(crate) cmd: Option<&'a str>,
    pub(crate) epoch: Option<&'a str>,
    pub(crate) ms: Option<u64>,
    pub(crate) quanta: Option<u64>,
    pub(crate) selector: Option<&'a str>,
    pub(crate) sender: Option<u64>,
    pub(crate) seq: Option<u64>,
    pub(crate) source: Option<&'a str>,
    pub(crate) turn: Option<u64>,
}

/// Stores what was found at a key. A key that occurs twice is left undecided.
fn keep<T: Drop>(place: &mut Option<T>, part: T) -> Result<(), Miss>
    ensures { OnOk result ((place.old ≡ None) × (place.new ≡ Some part)) }
{
    if place.is_some() {
        return Err(Miss::Undecided);
    }
    *place = Some(part);
    Ok(())
}

impl<'a> LineFields<'a> {
    /// No keys yet.
    pub(crate) fn new() -> LineFields<'a>
        ensures { IsFoundIn result no_members }
    {
        LineFields {
            count: 0,
            actor: None,
            args: None,
            class: None,
            cmd: None,
            epoch: None,
            ms: None,
            quanta: None,
            selector: None,
            sender: None,
            seq: None,
            source: None,
            turn: None,
        }
    }

    /// Reads the value of a key.
    fn read(&mut self, alloc: Global, reader: &mut Reader<'a>, key: &str) -> Result<(), Miss>
        ensures read { OnOk result ((d : Data) × BeginsWith 126 reader.old d reader.new
            × ((ms : Members) → IsFoundIn self.old ms → IsFoundIn self.new (put key.now d ms))) }
        ensures shorter { OnOk result (length reader.new < length reader.old) }
    {
        if self.count >= MOST_KEYS {
            return Err(Miss::Undecided);
        }
        self.count += 1;
        match key {
            "actor" => keep(&mut self.actor, read_whole(reader)?),
            "args" => keep(&mut self.args, read_arguments(alloc, reader)?),
            "class" => keep(&mut self.class, read_text(reader)?),
            "cmd" => keep(&mut self.cmd, read_text(reader)?),
            "epoch" => keep(&mut self.epoch, read_text(reader)?),
            "ms" => keep(&mut self.ms, read_whole(reader)?),
            "quanta" => keep(&mut self.quanta, read_whole(reader)?),
            "selector" => keep(&mut self.selector, read_text(reader)?),
            "sender" => keep(&mut self.sender, read_whole(reader)?),
            "seq" => keep(&mut self.seq, read_whole(reader)?),
            "source" => keep(&mut self.source, read_text(reader)?),
            "turn" => keep(&mut self.turn, read_whole(reader)?),
            _ => Err(Miss::Undecided),
        }
    }

    /// Reads the members of an object, after its opening brace, where nothing was found before.
    pub(crate) fn read_all(&mut self, alloc: Global, reader: &mut Reader<'a>) -> Result<(), Miss>
        requires { IsFoundIn self.old no_members }
        ensures { OnOk result ((ms : Members) × BeginsWithMembers 126 reader.old ms reader.new × IsFoundIn self.new ms) }
    {
        'members: while let Some(key) = reader.next_key()? {
            self.read(alloc, reader, key)?;
        }
        Ok(())
    }
}
