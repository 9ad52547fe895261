//! A session of a handler that numbers its commands.
use st_classes::refusals::Refusal;
use st_session::handlers::Handler;
use st_session::sessions::session;
use st_wire::commands::Command;
use st_wire::replies::Reply;
use st_wire::streams::{MemoryInput, MemoryOutput};
use std::alloc::{AllocError, Global};
use std::test::*;

/// How many commands there were.
#[derive(Drop)]
struct Counting {
    commands: u64,
}

impl Handler for Counting {
    ghost answers = { λ i c r j. Unit {0} };

    fn reply(&mut self, _alloc: Global, _command: Command) -> Reply {
        self.commands = self.commands.wrapping_add(1);
        Reply::Turn(self.commands)
    }
}

/// What is written in a session, how many commands the handler saw, and how the session ends.
fn counted(
    alloc: Global,
    text: &[u8],
) -> Result<(MemoryOutput, u64, Result<u64, Refusal>), AllocError> {
    let mut handler = Counting { commands: 0 };
    let mut input = MemoryInput::new(Vec::from_slice(alloc, text)?);
    let mut output = MemoryOutput::new(alloc);
    let end = session(&mut handler, alloc, &mut input, &mut output);
    Ok((output, handler.commands, end))
}

#[test]
fn every_command_is_handled_once(rt: HostRuntime) -> Result<(), Fail> {
    let (output, commands, end) = counted(rt.alloc(), b"{\"cmd\":\"run\"}\n\n{\"cmd\":\"run\"}")?;
    assert!(rt; end == Ok(3));
    assert!(rt; commands == 2);
    let replies = b"{\"ok\":{\"turn\":1}}\n{\"error\":\"BadCommand\"}\n{\"ok\":{\"turn\":2}}\n";
    assert!(rt; output.as_slice() == replies.as_slice());
    Ok(())
}
