//! Frames that fit the code of their methods.
ghost use Rattle.std.specs.Prelude.{◌≡◌, ◌+◌, Some, Decides, slice_get};
ghost use Rattle.st_classes.specs.EditLists.{method_at};
ghost use Rattle.st_classes.specs.Methods.{DepthAt};
ghost use Rattle.st_turn.specs.BodyFits.{IsFrame, IsSend, Runs, Waits};
ghost use Rattle.st_image.specs.WorldInvariant.{given};

use crate::fitting::objects::{class_of, has_slots_of};
use crate::fitting::values::{are_there, is_there};
use st_classes::instructions::Instruction;
use st_classes::methods::Method;
use st_classes::names::Names;
use st_classes::version::Version;
use st_turn::body::Object;
use st_turn::frame::FrameRef;

/// Whether a frame is one of its method, its receiver suits the method, and what its values name exists.
fn frame_fits(
    names: &Names,
    version: &Version,
    actors: u32,
    objects: &[Object],
    frame: &FrameRef<'_>,
    method: &Method,
) -> bool
    requires { method_at version.now frame.now.method ≡ Some method.now }
    ensures { Decides result (IsFrame (given names.now actors) version.now objects.now frame.now method.now) }
{
    if usize::from(frame.pc) >= method.code().len() {
        return false;
    }
    if frame.temps.len() != usize::from(method.arguments()) + usize::from(method.temporaries()) {
        return false;
    }
    if !has_slots_of(version, class_of(objects, frame.receiver), method.holder()) {
        return false;
    }
    if !is_there(names, version, actors, objects.len(), frame.receiver) {
        return false;
    }
    are_there(names, version, actors, objects.len(), frame.temps)
        && are_there(names, version, actors, objects.len(), frame.operands)
}

/// Whether a method has this many operands at a place.
fn has_depth(method: &Method, place: u16, depth: usize) -> bool
    ensures { Decides result (DepthAt method.now.depths place depth) }
{
    match method.depths().get(usize::from(place)) {
        Some(operands) => usize::from(*operands) == depth,
        None => false,
    }
}

/// Whether a method has one operand more than this at a place.
fn has_depth_above(method: &Method, place: u16, depth: usize) -> bool
    ensures { Decides result (DepthAt method.now.depths place (depth + 1)) }
{
    match method.depths().get(usize::from(place)) {
        Some(operands) => 0 < *operands && usize::from(*operands) - 1 == depth,
        None => false,
    }
}

/// Whether a running frame fits.
pub(super) fn runs(
    names: &Names,
    version: &Version,
    actors: u32,
    objects: &[Object],
    frame: &FrameRef<'_>,
) -> bool
    ensures { Decides result (Runs (given names.now actors) version.now objects.now frame.now) }
{
    let Some(method) = version.method(frame.method) else {
        return false;
    };
    frame_fits(names, version, actors, objects, frame, method)
        && has_depth(method, frame.pc, frame.operands.len())
}

/// Whether the instruction at a place is a send.
fn is_send(method: &Method, place: u16) -> bool
    ensures { Decides result (IsSend (slice_get method.now.code place)) }
{
    match method.code().get(usize::from(place)) {
        Some(Instruction::Send(_, _) | Instruction::SuperSend(_, _)) => true,
        _ => false,
    }
}

/// Whether a frame that waits for an answer fits.
pub(super) fn waits(
    names: &Names,
    version: &Version,
    actors: u32,
    objects: &[Object],
    frame: &FrameRef<'_>,
) -> bool
    ensures { Decides result (Waits (given names.now actors) version.now objects.now frame.now) }
{
    let Some(method) = version.method(frame.method) else {
        return false;
    };
    if frame.pc == 0 {
        return false;
    }
    frame_fits(names, version, actors, objects, frame, method)
        && is_send(method, frame.pc - 1)
        && has_depth_above(method, frame.pc, frame.operands.len())
}
