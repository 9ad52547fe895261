//! Where in their sources the sends of frames stand. No clause tells which offsets these are.
use st_classes::values::MethodId;
use st_classes::version::Version;
use st_compile::offsets::place_of;
use st_turn::body::Phase;
use st_turn::stack::Stack;
use std::alloc::{AllocError, Global};

/// Where the send at a place of a method's code stands, if that is known.
fn offset(
    alloc: Global,
    version: &Version,
    method: MethodId,
    place: u16,
) -> Result<Option<u16>, AllocError> {
    match version.method(method) {
        Some(method) => place_of(alloc, method.source(), usize::from(place)),
        None => Ok(None),
    }
}

/// Where the sends stand that frames wait for, and the one that the running frame is at.
fn of_frames(
    alloc: Global,
    version: &Version,
    stack: &Stack,
) -> Result<Vec<Option<u16>>, AllocError> {
    let mut offsets = Vec::new(alloc);
    for place in 0..stack.waiting() {
        if let Some(frame) = stack.waiting_frame(place) {
            // A frame that waits goes on behind its send.
            let send = frame.pc.saturating_sub(1);
            offsets.push(offset(alloc, version, frame.method, send)?)?;
        }
    }
    offsets.push(offset(alloc, version, stack.method(), stack.pc())?)?;
    Ok(offsets)
}

/// The same of all frames of a turn, from the first to the running one.
pub(crate) fn offsets(
    alloc: Global,
    version: &Version,
    phase: &Phase,
) -> Result<Vec<Option<u16>>, AllocError> {
    match phase {
        Phase::Frames(stack) => of_frames(alloc, version, stack),
        _ => Ok(Vec::new(alloc)),
    }
}
