//! Bodies that fit a class table.
ghost use Rattle.std.specs.Prelude.{◌≡◌, Some, All, Decides};
ghost use Rattle.st_classes.specs.MethodSuits.{arity_at};
ghost use Rattle.st_turn.specs.BodyFits.{Fits, FitsPhase, Waits};
ghost use Rattle.st_image.specs.WorldInvariant.{given};

use crate::fitting::frames::{runs, waits};
use crate::fitting::objects::objects_fit;
use crate::fitting::values::{are_there, is_there};
use st_classes::names::Names;
use st_classes::values::Selector;
use st_classes::version::Version;
use st_turn::body::{Body, OBJECTS, Object, Outcome, Phase};
use st_turn::stack::Stack;

/// The most frames of a turn.
const FRAMES: usize = 128;

/// Whether a message has its selector's number of arguments.
fn has_arity(names: &Names, selector: Selector, count: usize) -> bool
    ensures { Decides result (arity_at names.now selector ≡ Some count) }
{
    u32::from(selector.0) < names.len() && usize::from(names.arity(selector)) == count
}

/// Whether the waiting frames fit.
fn all_wait(
    names: &Names,
    version: &Version,
    actors: u32,
    objects: &[Object],
    frames: &Stack,
) -> bool
    ensures { Decides result (All (Waits (given names.now actors) version.now objects.now) frames.now.callers) }
{
    'frames: for place in 0..frames.waiting() {
        let Some(frame) = frames.waiting_frame(place) else {
            unreachable!()
        };
        if !waits(names, version, actors, objects, &frame) {
            return false;
        }
    }
    true
}

/// Whether the phase of a turn fits.
fn phase_fits(
    names: &Names,
    version: &Version,
    actors: u32,
    objects: &[Object],
    phase: &Phase,
) -> bool
    ensures { Decides result (FitsPhase (given names.now actors) version.now objects.now phase.now) }
{
    match phase {
        Phase::Fresh => true,
        Phase::Start { selector, args } => {
            has_arity(names, *selector, args.len())
                && are_there(names, version, actors, objects.len(), args.as_slice())
        }
        Phase::Frames(frames) => {
            frames.waiting() < FRAMES
                && runs(names, version, actors, objects, &frames.running_frame())
                && all_wait(names, version, actors, objects, frames)
        }
        Phase::Done(Outcome::Answer(value)) => {
            is_there(names, version, actors, objects.len(), *value)
        }
        Phase::Done(Outcome::Fault(_)) => true,
    }
}

/// Whether a body fits a class table, with names and a number of actors.
pub(super) fn body_fits(names: &Names, version: &Version, actors: u32, body: &Body) -> bool
    ensures { Decides result (Fits (given names.now actors) version.now body.now) }
{
    let objects = body.objects.as_slice();
    0 < objects.len()
        && objects.len() <= OBJECTS
        && objects_fit(names, version, actors, objects)
        && phase_fits(names, version, actors, objects, &body.phase)
}
