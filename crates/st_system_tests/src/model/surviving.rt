//! Which selectors the steps of a claim used, and whether later edits touch them.
ghost use Rattle.std.specs.Prelude.{◌≡◌, IfOk};
ghost use Rattle.st_turn.specs.BodyFits.{FitsSome};

use crate::model::turns::take_step;
use st_classes::edits::Edit;
use st_classes::instructions::Instruction;
use st_classes::kernel::DOES_NOT_UNDERSTAND;
use st_classes::values::{ActorId, Selector};
use st_classes::version::Version;
use st_turn::body::{Body, Phase};
use st_turn::claim::Claim;
use std::alloc::{AllocError, Global};

/// The selector of the message that the next step of a body dispatches or sends, if it does.
fn used_next(body: &Body, version: &Version) -> Option<Selector> {
    match &body.phase {
        Phase::Start { selector, .. } => Some(*selector),
        Phase::Frames(frames) => {
            let code = version.method(frames.method())?.code();
            match code.get(frames.pc() as usize)? {
                Instruction::Send(selector, _) | Instruction::SuperSend(selector, _) => Some(
                    *selector,
                ),
                _ => None,
            }
        }
        _ => None,
    }
}

/// Takes this many steps, and notes the selectors that they use.
fn note_steps(
    alloc: Global,
    body: &mut Body,
    actor: ActorId,
    version: &Version,
    steps: u32,
    used: &mut Vec<Selector>,
) -> Result<(), AllocError>
    requires { FitsSome version.now actor body.old }
    ensures { FitsSome version.now actor body.new }
{
    for _step in 0..steps {
        if let Some(selector) = used_next(body, version) {
            used.push(selector)?;
        }
        take_step(alloc, body, actor, version)?;
    }
    Ok(())
}

/// The selectors that this many steps of a claim's actor use.
fn used_by(alloc: Global, start: &Claim, steps: u32) -> Result<Vec<Selector>, AllocError> {
    start.known();
    let mut body = start.after().copy(alloc)?;
    let mut used = Vec::new(alloc);
    note_steps(
        alloc,
        &mut body,
        start.actor(),
        start.token().shown(),
        steps,
        &mut used,
    )?;
    Ok(used)
}

/// Whether an edit is one for a selector, or for messages that are not understood, or one that moves a class.
fn touches(edit: &Edit, selector: Selector) -> bool {
    let edited = match edit {
        Edit::Define { .. } => return false,
        Edit::Install { method, .. } => method.selector(),
        Edit::Remove { selector, .. } => *selector,
        Edit::Reparent { .. } => return true,
    };
    edited == selector || edited == DOES_NOT_UNDERSTAND
}

/// Whether an edit touches one of some selectors.
fn touches_one(edit: &Edit, selectors: &[Selector]) -> bool {
    selectors.iter().any(|selector| touches(edit, *selector))
}

/// Whether this many steps of a claim's actor used a selector that one of the later edits of a version touches.
pub(super) fn is_touched(
    alloc: Global,
    start: &Claim,
    steps: u32,
    version: &Version,
) -> Result<bool, AllocError> {
    let used = used_by(alloc, start, steps)?;
    for place in start.token().shown().edits()..version.edits() {
        if let Some(edit) = version.edit(place) {
            if touches_one(edit, used.as_slice()) {
                return Ok(true);
            }
        }
    }
    Ok(false)
}
