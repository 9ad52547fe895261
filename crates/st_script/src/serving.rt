//! Commands answered by an image and its worker.
ghost use Rattle.std.specs.Prelude.{◌≡◌};
ghost use Rattle.st_script.specs.CommandReplies.{Runs, Serves};

use crate::images::Image;
use crate::keepers::{Keeper, save};
use crate::quantum::Quantum;
use crate::runner::Runner;
use st_session::handlers::Handler;
use st_wire::commands::Command;
use st_wire::replies::Reply;
use std::alloc::Global;

/// Takes quanta of ready actors, in turn, until the given number is taken or no actor is ready.
fn run(alloc: Global, runner: &mut Runner, quantum: Quantum, quanta: u32) -> Reply
    ensures { Runs quantum quanta runner.old 0 0 result runner.new }
{
    let mut steps = 0;
    for taken in 0..quanta {
        match runner.take_quantum(alloc, quantum) {
            Ok(Some(count)) => steps += u64::from(count),
            Ok(None) => {
                return Reply::Ran {
                    quanta: taken,
                    steps,
                };
            }
            Err(refusal) => return Reply::Refused(refusal),
        }
    }
    Reply::Ran { quanta, steps }
}

fn serve<S: Keeper>(
    alloc: Global,
    runner: &mut Runner,
    quantum: Quantum,
    keeper: &S,
    command: Command,
) -> Reply
    ensures { Serves quantum runner.old command result runner.new }
{
    match command {
        Command::Run { quanta } => run(alloc, runner, quantum, quanta),
        Command::Save => save(alloc, keeper, runner.image()),
        command => runner.ask(alloc, command),
    }
}

/// Has the keeper tell what a command has led to, by the reply to it.
fn note<S: Keeper>(alloc: Global, keeper: &S, image: &Image, reply: &Reply) {
    match reply {
        Reply::Counted { .. } => keeper.note_checkpoint(alloc, image),
        _ => keeper.note(alloc, image),
    }
}

/// An image and its worker, as the handler of a session, and who keeps the image where it is saved.
#[derive(Drop)]
pub struct ImageHandler<'a, S: Keeper> {
    pub runner: Runner,
    pub quantum: Quantum,
    pub keeper: &'a S,
}

impl<'a, S: Keeper> Handler for ImageHandler<'a, S> {
    ghost answers = { λ i c r j. Serves i.quantum i.runner c r j.runner × (j.quantum ≡ i.quantum) };

    fn reply(&mut self, alloc: Global, command: Command) -> Reply {
        let reply = serve(alloc, &mut self.runner, self.quantum, self.keeper, command);
        note(alloc, self.keeper, self.runner.image(), &reply);
        reply
    }
}
