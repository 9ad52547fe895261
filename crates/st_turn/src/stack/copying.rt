//! Frames as plain data: how they are made of their parts, copied and compared. Values above the top never count.
ghost use Rattle.std.specs.Prelude.{◌≡◌, ◌↔◌, ◌++◌, length, IfOk, IsTrue, OnOk};
ghost use Rattle.st_turn.specs.StackLayout.{place_of, places_of, spread, spread_all};

use crate::frame::Frame;
use crate::stack::callers::Callers;
use crate::stack::{Place, Stack};
use crate::value_lists::{emptied, same_values};
use st_classes::limits::OPERANDS;
use st_classes::values::Value;
use std::alloc::{AllocError, Global};

/// The most values above the top for which a copy has room.
const SPARE: usize = 320;

/// Values above the top, as of a copy.
pub(crate) static NILS: [Value; SPARE] = [Value::Nil; SPARE];

impl Stack {
    /// Makes the frames of a turn: those that wait, the last called last, and the running one. It fails only if memory runs out.
    pub fn from_frames(
        alloc: Global,
        callers: &[Frame],
        running: &Frame,
    ) -> Result<Stack, AllocError>
        ensures { IfOk result (λ stack. stack ≡ record { callers = callers.now; running = running.now }) }
    {
        let mut values = Vec::new(alloc);
        let callers = Callers::from_vec(lay_all(alloc, &mut values, callers)?);
        let at = lay(&mut values, running)?;
        let top = values.len();
        let size = usize::max(top, at.base + at.temps + OPERANDS);
        values.resize(size, Value::Nil)?;
        Ok(Stack {
            values,
            top,
            callers,
            at,
        })
    }

    /// A copy of the frames in these lists, with as much room for calls as these have, up to a bound. The lists lose what they had.
    fn copy_in(&self, values: Vec<Value>, callers: Callers) -> Result<Stack, AllocError>
        ensures { IfOk result (λ stack. stack ≡ self.now) }
    {
        let size = usize::min(self.values.len(), self.top.saturating_add(SPARE));
        let mut values = emptied(values, size.saturating_mul(2));
        values.reserve_exact(size)?;
        // Values above the top are not copied: if another processor wrote them last, reading them is slow. The room is filled with
        // nils instead.
        values.extend_from_slice(&self.values[..self.top])?;
        values.extend_from_slice(&NILS[..size - self.top])?;
        let callers = self.callers.copy_in(callers)?;
        Ok(Stack {
            values,
            top: self.top,
            callers,
            at: self.at,
        })
    }

    /// A copy of the frames, with as much room for calls as these have, up to a bound.
    pub fn copy(&self, alloc: Global) -> Result<Stack, AllocError>
        ensures { IfOk result (λ stack. stack ≡ self.now) }
    {
        self.copy_in(Vec::new(alloc), Callers::new(alloc))
    }

    /// Whether a copy of these frames finds in the memory of other ones enough room, and not too much.
    pub(crate) fn fits_in(&self, spare: &Stack) -> bool {
        let size = usize::min(self.values.len(), self.top.saturating_add(SPARE));
        size <= spare.values.capacity() && spare.values.capacity() / 2 <= size
    }

    /// The same in the memory of other frames, as far as it goes.
    pub(crate) fn copy_into(&self, spare: Stack) -> Result<Stack, AllocError>
        ensures { IfOk result (λ stack. stack ≡ self.now) }
    {
        let Stack {
            values,
            callers,
            ..
        } = spare;
        self.copy_in(values, callers)
    }

    /// Whether two stacks have the same frames.
    pub fn is_same(&self, other: &Stack) -> bool
        ensures { IsTrue result ↔ self.now ≡ other.now }
    {
        if !same_place(&self.at, &other.at) {
            return false;
        }
        if !same_places(self.callers.as_slice(), other.callers.as_slice()) {
            return false;
        }
        same_values(&self.values[..self.top], &other.values[..other.top])
    }
}

/// Puts the values of a frame on top of others, and returns the frame's place.
fn lay(values: &mut Vec<Value>, frame: &Frame) -> Result<Place, AllocError>
    ensures place { IfOk result (λ place. place ≡ place_of (length values.old.items) frame.now) }
    ensures values { OnOk result (values.new.items ≡ values.old.items ++ spread frame.now) }
{
    let base = values.len() + 1;
    values.push(frame.receiver)?;
    values.extend_from_slice(frame.temps.as_slice())?;
    values.extend_from_slice(frame.operands.as_slice())?;
    Ok(Place {
        method: frame.method,
        pc: frame.pc,
        base,
        temps: frame.temps.len(),
    })
}

/// Puts the values of frames one above the other, and returns the frames' places.
fn lay_all(
    alloc: Global,
    values: &mut Vec<Value>,
    frames: &[Frame],
) -> Result<Vec<Place>, AllocError>
    requires { length values.old.items ≡ 0 }
    ensures places { IfOk result (λ places. places.items ≡ places_of 0 frames.now) }
    ensures values { OnOk result (values.new.items ≡ spread_all frames.now) }
{
    let mut places = Vec::new(alloc);
    for frame in frames {
        places.push(lay(values, frame)?)?;
    }
    Ok(places)
}

fn same_place(one: &Place, other: &Place) -> bool
    ensures { IsTrue result ↔ one.now ≡ other.now }
{
    one == other
}

fn same_places(some: &[Place], others: &[Place]) -> bool
    ensures { IsTrue result ↔ some.now ≡ others.now }
{
    some == others
}
