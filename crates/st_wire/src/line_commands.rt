//! The command of a line, from what was found at its keys.
ghost use Rattle.std.specs.Prelude.{◌≡◌, ◌≤◌, Some, IfOk, IfSome};
ghost use Rattle.st_wire.specs.Commands.{close_in, command_in, method_in, outcome_in, post_in, run_in, wait_in};
ghost use Rattle.st_wire.specs.LineFields.{IsOfForm};

use crate::commands::{Command, DEFAULT_QUANTA};
use crate::line_fields::LineFields;
use crate::misses::Miss;
use crate::tokens::{actor_of, copied};
use std::alloc::Global;

/// The command, if it is of a form that is read from tokens: `post`, `run`, `outcome`, `wait`, `method` or `close`.
pub(crate) fn command_of(alloc: Global, found: &mut LineFields<'_>) -> Result<Command, Miss>
    ensures { IfOk result (IsOfForm command_in found.old) }
{
    match found.cmd {
        Some("post") => post(alloc, found),
        Some("run") => run(found),
        Some("outcome") => outcome(found),
        Some("wait") => wait(alloc, found),
        Some("method") => method(alloc, found),
        Some("close") => close(found),
        _ => Err(Miss::Undecided),
    }
}

fn post(alloc: Global, found: &mut LineFields<'_>) -> Result<Command, Miss>
    ensures { IfOk result (IsOfForm post_in found.old) }
{
    let (6, Some(actor), Some(_), Some(selector), Some(sender), Some(seq)) = (
        found.count,
        found.actor,
        found.cmd,
        found.selector,
        found.sender,
        found.seq,
    ) else {
        return Err(Miss::Undecided);
    };
    let Some(args) = found.args.take() else {
        return Err(Miss::Undecided);
    };
    if sender > 65_535 {
        return Err(Miss::Undecided);
    }
    Ok(Command::Post {
        actor: actor_of(actor)?,
        args,
        selector: copied(alloc, selector)?,
        sender: sender as u16,
        seq,
    })
}

fn close(found: &LineFields<'_>) -> Result<Command, Miss>
    ensures { IfOk result (IsOfForm close_in found.now) }
{
    let LineFields {
        count: 2,
        actor: Some(actor),
        cmd: Some(_),
        ..
    } = *found
    else {
        return Err(Miss::Undecided);
    };
    Ok(Command::Close {
        actor: actor_of(actor)?,
    })
}

fn run(found: &LineFields<'_>) -> Result<Command, Miss>
    ensures { IfOk result (IsOfForm run_in found.now) }
{
    let quanta = match *found {
        LineFields {
            count: 1,
            cmd: Some(_),
            ..
        } => DEFAULT_QUANTA,
        LineFields {
            count: 2,
            cmd: Some(_),
            quanta: Some(quanta),
            ..
        } if 1 <= quanta && quanta <= 1_000_000 => quanta as u32,
        _ => return Err(Miss::Undecided),
    };
    Ok(Command::Run { quanta })
}

fn outcome(found: &LineFields<'_>) -> Result<Command, Miss>
    ensures { IfOk result (IsOfForm outcome_in found.now) }
{
    let LineFields {
        count: 3,
        actor: Some(actor),
        cmd: Some(_),
        turn: Some(turn),
        ..
    } = *found
    else {
        return Err(Miss::Undecided);
    };
    Ok(Command::Outcome {
        actor: actor_of(actor)?,
        turn,
    })
}

fn wait(alloc: Global, found: &LineFields<'_>) -> Result<Command, Miss>
    ensures { IfOk result (IsOfForm wait_in found.now) }
{
    let LineFields {
        count: 5,
        actor: Some(actor),
        cmd: Some(_),
        epoch: Some(epoch),
        ms: Some(ms),
        turn: Some(turn),
        ..
    } = *found
    else {
        return Err(Miss::Undecided);
    };
    if ms > 60_000 {
        return Err(Miss::Undecided);
    }
    Ok(Command::Wait {
        actor: actor_of(actor)?,
        epoch: copied(alloc, epoch)?,
        ms: ms as u32,
        turn,
    })
}

fn method(alloc: Global, found: &LineFields<'_>) -> Result<Command, Miss>
    ensures { IfOk result (IsOfForm method_in found.now) }
{
    let LineFields {
        count: 3,
        class: Some(class),
        cmd: Some(_),
        source: Some(source),
        ..
    } = *found
    else {
        return Err(Miss::Undecided);
    };
    Ok(Command::Method {
        class: copied(alloc, class)?,
        source: copied(alloc, source)?,
    })
}
