//! A reader of many lines.
ghost use Rattle.std.specs.Prelude.{◌≡◌, Some, IfOk};
ghost use Rattle.st_classes.specs.Refusals.{Answers, first_of};
ghost use Rattle.st_wire.specs.Commands.{command_of, command_rules};

use crate::commands::{Command, read_command};
use crate::line_commands;
use crate::line_fields::LineFields;
use crate::misses::Miss;
use json::{Reader, Scratch, Token};
use st_classes::refusals::Refusal;
use std::alloc::Global;
use std::str;

/// Reads lines as commands. It keeps the 16 KB that reading needs from line to line, so that they are allocated once.
#[derive(Drop)]
pub struct LineReader {
    scratch: Option<Box<Scratch>>,
}

impl LineReader {
    /// Makes a reader. If there is no memory for what it would keep, it keeps nothing, and each line allocates its own.
    pub fn new(alloc: Global) -> LineReader {
        match Box::new(alloc, Scratch::new(alloc)) {
            Ok(scratch) => LineReader {
                scratch: Some(scratch),
            },
            Err(_) => LineReader { scratch: None },
        }
    }

    /// The command of a line, as [`read_command`] gives it.
    pub fn read(&mut self, alloc: Global, line: &[u8]) -> Result<Command, Refusal>
        ensures { Answers (first_of (command_rules line.now)) result
            (λ c. command_of line.now ≡ Some c) }
    {
        if let Some(scratch) = &mut self.scratch {
            match read_tokens(alloc, scratch, line) {
                Ok(command) => return Ok(command),
                Err(Miss::NoMemory) => return Err(Refusal::NoMemory),
                Err(Miss::Undecided) => {},
            }
        }
        read_command(alloc, line)
    }
}

/// The command of a line, if it can be read from the tokens.
fn read_tokens(alloc: Global, scratch: &mut Scratch, line: &[u8]) -> Result<Command, Miss>
    ensures { IfOk result (λ c. command_of line.now ≡ Some c) }
{
    let Ok(text) = str::from_utf8(line) else {
        return Err(Miss::Undecided);
    };
    let mut reader = Reader::new(text, scratch)?;
    let Some(Token::BeginObject) = reader.next() else {
        return Err(Miss::Undecided);
    };
    let mut found = LineFields::new();
    found.read_all(alloc, &mut reader)?;
    if reader.next().is_some() {
        return Err(Miss::Undecided);
    }
    line_commands::command_of(alloc, &mut found)
}
