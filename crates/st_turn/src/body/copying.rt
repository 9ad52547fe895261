//! Bodies as plain data: how they are copied and compared.
ghost use Rattle.std.specs.Prelude.{◌≡◌, ◌↔◌, ◌≤◌, length, take, IfOk, IsTrue, OnOk};
ghost use Rattle.st_turn.specs.Idle.{is_in_method};

use crate::body::{Body, Object, Objects, Outcome, Phase};
use crate::value_lists::{copied, copied_into, same_values};
use st_classes::seq::Seq;
use std::alloc::{AllocError, Global};

impl Object {
    /// A copy of the object.
    fn copy(&self, alloc: Global) -> Result<Object, AllocError>
        ensures { IfOk result (λ object. object ≡ self.now) }
    {
        Ok(Object {
            class: self.class,
            slots: copied(alloc, &self.slots)?,
        })
    }

    /// Makes this object the same as another one. It takes memory only where its room does not fit the values. If memory runs out, it
    /// has no values.
    fn become_same(&mut self, alloc: Global, other: &Object) -> Result<(), AllocError>
        ensures { OnOk result (self.new ≡ other.now) }
    {
        let spare = std::mem::replace(&mut self.slots, Seq::from_vec(Vec::new(alloc)));
        self.slots = copied_into(spare, &other.slots)?;
        self.class = other.class;
        Ok(())
    }

    /// Whether two objects are of one class and have the same values.
    fn is_same(&self, other: &Object) -> bool
        ensures { IsTrue result ↔ self.now ≡ other.now }
    {
        if self.class.0 != other.class.0 {
            return false;
        }
        same_values(self.slots.as_slice(), other.slots.as_slice())
    }
}

impl Objects {
    /// A copy of the objects.
    fn copy(&self, alloc: Global) -> Result<Objects, AllocError>
        ensures { IfOk result (λ objects. objects ≡ self.now) }
    {
        let items = Vec::with_capacity(alloc, self.items.len())?;
        self.copy_into(alloc, Objects { items })
    }

    /// A copy of the objects that takes the memory of other ones, as far as it goes.
    fn copy_into(&self, alloc: Global, spare: Objects) -> Result<Objects, AllocError>
        ensures { IfOk result (λ objects. objects ≡ self.now) }
    {
        let mut items = first_ones(spare, self.items.len());
        make_same(alloc, items.as_mut_slice(), self.items.as_slice())?;
        add_rest(alloc, &mut items, self.items.as_slice())?;
        Ok(Objects { items })
    }

    /// Whether two actors' objects are the same.
    fn is_same(&self, other: &Objects) -> bool
        ensures { IsTrue result ↔ self.now ≡ other.now }
    {
        same_objects(self.items.as_slice(), other.items.as_slice())
    }
}

/// The first objects of spare ones, at most this many. If there is room for many more, there are none, in a new vector, so that the
/// room of an actor with many objects does not go on to others.
fn first_ones(spare: Objects, count: usize) -> Vec<Object>
    ensures { length result.items ≤ count }
{
    let Objects { mut items } = spare;
    if items.capacity() / 2 > count.saturating_add(4) {
        return Vec::new(*items.allocator());
    }
    items.truncate(count);
    items
}

/// Makes objects the same as the first ones of a list that is not shorter.
fn make_same(alloc: Global, objects: &mut [Object], others: &[Object]) -> Result<(), AllocError>
    requires { length objects.old ≤ length others.now }
    ensures { OnOk result (objects.new ≡ take (length objects.old) others.now) }
{
    let mut at = 0;
    'same: while at < objects.len() {
        objects[at].become_same(alloc, &others[at])?;
        at += 1;
    }
    Ok(())
}

/// Adds copies of the objects of a list to its first ones.
fn add_rest(alloc: Global, objects: &mut Vec<Object>, others: &[Object]) -> Result<(), AllocError>
    requires first { objects.old.items ≡ take (length objects.old.items) others.now }
    requires few { length objects.old.items ≤ length others.now }
    ensures { OnOk result (objects.new.items ≡ others.now) }
{
    objects.reserve_exact(others.len() - objects.len())?;
    'rest: while objects.len() < others.len() {
        let copy = others[objects.len()].copy(alloc)?;
        objects.push(copy)?;
    }
    Ok(())
}

/// Whether two lists have the same objects.
fn same_objects(some: &[Object], others: &[Object]) -> bool
    ensures { IsTrue result ↔ some.now ≡ others.now }
{
    if some.len() != others.len() {
        return false;
    }
    for i in 0..some.len() {
        if !some[i].is_same(&others[i]) {
            return false;
        }
    }
    true
}

fn same_outcome(one: Outcome, other: Outcome) -> bool
    ensures { IsTrue result ↔ one ≡ other }
{
    one == other
}

impl Phase {
    /// A copy of the phase.
    fn copy(&self, alloc: Global) -> Result<Phase, AllocError>
        ensures { IfOk result (λ phase. phase ≡ self.now) }
    {
        Ok(match self {
            Phase::Fresh => Phase::Fresh,
            Phase::Start { selector, args } => Phase::Start {
                selector: *selector,
                args: copied(alloc, args)?,
            },
            Phase::Frames(frames) => Phase::Frames(frames.copy(alloc)?),
            Phase::Done(outcome) => Phase::Done(*outcome),
        })
    }

    /// A copy of the phase that takes the memory of another one, if both are frames.
    fn copy_into(&self, alloc: Global, spare: Phase) -> Result<Phase, AllocError>
        ensures { IfOk result (λ phase. phase ≡ self.now) }
    {
        match (self, spare) {
            (Phase::Frames(frames), Phase::Frames(spare)) => {
                Ok(Phase::Frames(frames.copy_into(spare)?))
            }
            _ => self.copy(alloc),
        }
    }

    /// Whether two turns are in the same state.
    fn is_same(&self, other: &Phase) -> bool
        ensures { IsTrue result ↔ self.now ≡ other.now }
    {
        match (self, other) {
            (Phase::Fresh, Phase::Fresh) => true,
            (
                Phase::Start { selector, args },
                Phase::Start {
                    selector: other_selector,
                    args: other_args,
                },
            ) => {
                selector.0 == other_selector.0
                    && same_values(args.as_slice(), other_args.as_slice())
            }
            (Phase::Frames(frames), Phase::Frames(others)) => frames.is_same(others),
            (Phase::Done(outcome), Phase::Done(other)) => same_outcome(*outcome, *other),
            _ => false,
        }
    }
}

impl Body {
    /// A copy of the body. It fails only if memory runs out.
    pub fn copy(&self, alloc: Global) -> Result<Body, AllocError>
        ensures { IfOk result (λ body. body ≡ self.now) }
    {
        Ok(Body {
            objects: self.objects.copy(alloc)?,
            phase: self.phase.copy(alloc)?,
        })
    }

    /// Whether a copy of this body finds what it needs in the memory of another one, and leaves little of that: the same number of
    /// objects, and frames if it has some itself.
    pub fn fits_in(&self, spare: &Body) -> bool
        ensures objects { IsTrue result → length self.now.objects ≡ length spare.now.objects }
        ensures frames { IsTrue result → is_in_method self.now.phase ≡ is_in_method spare.now.phase }
    {
        if self.objects.len() != spare.objects.len() {
            return false;
        }
        match (&self.phase, &spare.phase) {
            (Phase::Frames(frames), Phase::Frames(others)) => frames.fits_in(others),
            (Phase::Frames(_), _) | (_, Phase::Frames(_)) => false,
            _ => true,
        }
    }

    /// The same copy. It takes the memory of another body, if there is one, as far as it goes.
    pub fn copy_into(&self, alloc: Global, spare: Option<Body>) -> Result<Body, AllocError>
        ensures { IfOk result (λ body. body ≡ self.now) }
    {
        match spare {
            Some(Body { objects, phase }) => Ok(Body {
                objects: self.objects.copy_into(alloc, objects)?,
                phase: self.phase.copy_into(alloc, phase)?,
            }),
            None => self.copy(alloc),
        }
    }

    /// Whether two bodies have the same objects, and their turns are in the same state.
    pub fn is_same(&self, other: &Body) -> bool
        ensures { IsTrue result ↔ self.now ≡ other.now }
    {
        if !self.objects.is_same(&other.objects) {
            return false;
        }
        self.phase.is_same(&other.phase)
    }
}
