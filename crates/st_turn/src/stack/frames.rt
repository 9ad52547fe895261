//! The frames of a stack, by reference.
ghost use Rattle.std.specs.Prelude.{◌≡◌, ◌+◌, ◌<◌, ◌≤◌, length, drop, slice_get};
ghost use Rattle.st_turn.specs.StackLayout.{IsLaid, end_below, frame_in};

use crate::frame::FrameRef;
use crate::stack::{Place, Stack};
use st_classes::values::Value;

impl Stack {
    /// How many frames wait for an answer.
    pub fn waiting(&self) -> usize
        ensures { result ≡ length self.now.callers }
    {
        self.callers.len()
    }

    /// The waiting frame with an index, from 0 for the one that was called first. None past the last.
    pub fn waiting_frame(&self, place: usize) -> Option<FrameRef<'_>>
        ensures { result ≡ slice_get self.now.callers place }
    {
        let places = self.callers.as_slice();
        let Some(at) = places.get(place) else {
            return None;
        };
        let end = end_above(places, place, self.at.base - 1);
        Some(frame_at(at, &self.values[..end]))
    }

    /// The running frame.
    pub fn running_frame(&self) -> FrameRef<'_>
        ensures { result ≡ self.now.running }
    {
        frame_at(&self.at, &self.values[..self.top])
    }
}

/// The index at which the operands of a waiting frame end: that of the next frame's receiver, or `end` for the last waiting frame.
fn end_above(places: &[Place], place: usize, end: usize) -> usize
    requires laid { IsLaid places.now end }
    requires place { place < length places.now }
    ensures { result ≡ end_below (drop (place + 1) places.now) end }
{
    match places.get(place + 1) {
        Some(next) => next.base - 1,
        None => end,
    }
}

/// The frame at a place, given the values up to the end of its operands.
fn frame_at<'a>(at: &Place, values: &'a [Value]) -> FrameRef<'a>
    requires receiver { 0 < at.now.base }
    requires temps { at.now.base + at.now.temps ≤ length values.now }
    ensures { result ≡ frame_in at.now values.now }
{
    let above = at.base + at.temps;
    FrameRef {
        method: at.method,
        pc: at.pc,
        receiver: values[at.base - 1],
        temps: &values[at.base..above],
        operands: &values[above..],
    }
}
