//! The handler of a session's commands.
ghost use Rattle.st_wire.specs.declared.commands.Command.{Command as CommandOf};
ghost use Rattle.st_wire.specs.declared.replies.Reply.{Reply as ReplyOf};
ghost use Rattle.st_session.specs.Sessions.{Replies};

use st_wire::commands::Command;
use st_wire::line_readers::LineReader;
use st_wire::replies::Reply;
use std::alloc::Global;

/// Answers the commands of a session.
pub trait Handler {
    /// The replies that it may give to a command, and how a reply leaves it.
    ghost answers: { Self → CommandOf → ReplyOf → Self → Type 0 };

    /// The reply to a command.
    fn reply(&mut self, alloc: Global, command: Command) -> Reply
        ensures { answers self.old command result self.new };
}

/// The reply to a line. If the line is not a command, the reply is BadCommand.
pub(crate) fn reply_to<H: Handler>(
    handler: &mut H,
    reader: &mut LineReader,
    alloc: Global,
    line: &[u8],
) -> Reply
    ensures { Replies H.answers handler.old line.now result handler.new }
{
    match reader.read(alloc, line) {
        Ok(command) => handler.reply(alloc, command),
        Err(refusal) => Reply::Refused(refusal),
    }
}
