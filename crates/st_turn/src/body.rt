//! The body of an actor: its objects, and the state of its turn.
ghost use Rattle.std.specs.Prelude.{◌≡◌, ◌<◌, [], ◌∷◌, ◌++◌, length, replicate, slice_get, Bool, IfOk, OnOk, OnErr};
ghost use Rattle.std.specs.Option.{option_copied};
ghost use Rattle.st_classes.specs.declared.values.Value.TheVariants.{Local, Nil};
ghost use Rattle.st_turn.specs.declared.body.Phase.TheVariants as phase;
ghost use Rattle.st_turn.specs.Effects.{slot_of, objects_after_store};
ghost use Rattle.st_turn.specs.Objects.{class_in};
ghost use Rattle.st_turn.specs.Needs.{HasSlot, IsAmong};
ghost use Rattle.st_turn.specs.Idle.{is_idle};

mod copying;

use crate::stack::Stack;
use st_classes::faults::Fault;
use st_classes::kernel::{ACTOR_REF, CLASS, FALSE, SMALL_INTEGER, SYMBOL, TRUE, UNDEFINED_OBJECT};
use st_classes::seq::Seq;
use st_classes::values::{ClassId, Selector, Value, Values};
use std::alloc::{AllocError, Global};
use std::marker::Model;

/// The most objects of an actor.
pub const OBJECTS: usize = 1024;

/// An object. It belongs to one actor, and others cannot refer to it.
#[derive(Drop)]
pub struct Object {
    pub class: ClassId,
    /// The values of its instance variables, inherited ones first.
    pub slots: Values,
}

impl Object {
    /// An object of a class with `slots` instance variables, all nil.
    fn new(alloc: Global, class: ClassId, slots: usize) -> Result<Object, AllocError>
        ensures { IfOk result (λ object. object ≡ record { class = class; slots = replicate slots Nil }) }
    {
        let mut values = Vec::with_capacity(alloc, slots)?;
        values.resize(slots, Value::Nil)?;
        Ok(Object {
            class,
            slots: Seq::from_vec(values),
        })
    }
}

/// The objects of an actor, of which object 0 is the actor itself.
#[derive(Drop)]
pub struct Objects {
    items: Vec<Object>,
}

impl Model for Objects {
    ghost use Rattle.std.specs.Prelude.{List};
    ghost use Rattle.st_turn.specs.declared.body.Object.{Object};

    ghost Value = { List Object };

    ghost view = { λ o. o.items.items };
}

impl Objects {
    /// The objects of a new actor: object 0 alone.
    fn first(alloc: Global, class: ClassId, slots: usize) -> Result<Objects, AllocError>
        ensures { IfOk result (λ objects. objects ≡ record { class = class; slots = replicate slots Nil } ∷ []) }
    {
        let mut items = Vec::with_capacity(alloc, 1)?;
        items.push(Object::new(alloc, class, slots)?)?;
        Ok(Objects { items })
    }

    /// Adds a new object after the others. Its instance variables are nil.
    pub(crate) fn add(
        &mut self,
        alloc: Global,
        class: ClassId,
        slots: usize,
    ) -> Result<(), AllocError>
        ensures ok { OnOk result (self.new ≡ self.old ++ record { class = class; slots = replicate slots Nil } ∷ []) }
        ensures err { OnErr result (self.new ≡ self.old) }
    {
        let object = Object::new(alloc, class, slots)?;
        self.items.push(object)?;
        Ok(())
    }

    /// The objects of a vector. No memory is taken.
    pub fn from_vec(items: Vec<Object>) -> Objects
        ensures { result ≡ items.items }
    {
        Objects { items }
    }

    /// The vector of the objects. No memory is taken.
    pub fn into_vec(self) -> Vec<Object>
        ensures { result.items ≡ self }
    {
        let Objects { items } = self;
        items
    }

    #[inline(always)]
    pub fn len(&self) -> usize
        ensures { result ≡ length self.now }
    {
        self.items.len()
    }

    /// The objects, by their numbers.
    pub fn as_slice(&self) -> &[Object]
        ensures { result.now ≡ self.now }
    {
        self.items.as_slice()
    }

    /// The class of a value. Integers and objects are tested first, since most receivers are such.
    #[inline(always)]
    pub fn class_of(&self, value: Value) -> ClassId
        requires { IsAmong self.now value }
        ensures { result ≡ class_in self.now value }
    {
        match value {
            Value::Int(_) => SMALL_INTEGER,
            Value::Local(n) => self.object_class(n),
            other => self.rare_class_of(other),
        }
    }

    /// The class of the object with this number.
    #[inline(always)]
    fn object_class(&self, place: u32) -> ClassId
        requires { place < length self.now }
        ensures { result ≡ class_in self.now (Local place) }
    {
        self.items[place as usize].class
    }

    /// The class of any value. This is a function apart, so that the code that is inlined stays small.
    #[cold]
    #[inline(never)]
    fn rare_class_of(&self, value: Value) -> ClassId
        requires { IsAmong self.now value }
        ensures { result ≡ class_in self.now value }
    {
        match value {
            Value::Int(_) => SMALL_INTEGER,
            Value::Bool(true) => TRUE,
            Value::Bool(false) => FALSE,
            Value::Nil => UNDEFINED_OBJECT,
            Value::Sym(_) => SYMBOL,
            Value::Actor(_) => ACTOR_REF,
            Value::Class(_) => CLASS,
            Value::Local(n) => self.object_class(n),
        }
    }

    /// An instance variable of a receiver.
    #[inline(always)]
    pub(crate) fn slot(&self, receiver: Value, place: u8) -> Value
        requires { HasSlot self.now receiver place }
        ensures { result ≡ slot_of self.now receiver place }
    {
        match receiver {
            Value::Local(n) => self.items[n as usize].slots.as_slice()[place as usize],
            _ => Value::Nil,
        }
    }

    /// Assigns a value to an instance variable of a receiver.
    #[inline(always)]
    pub(crate) fn store(&mut self, receiver: Value, place: u8, value: Value)
        requires { HasSlot self.old receiver place }
        ensures { self.new ≡ objects_after_store self.old receiver place value }
    {
        if let Value::Local(n) = receiver {
            let slots = &mut self.items[n as usize].slots;
            match value {
                Value::Int(number) => slots.set(place as usize, Value::Int(number)),
                other => slots.set(place as usize, other),
            }
        }
    }
}

/// How a turn ended.
#[derive(Clone, Copy, PartialEq, Eq, Debug)]
pub enum Outcome {
    Answer(Value),
    Fault(Fault),
}

/// The state of an actor's turn.
#[derive(Drop)]
pub enum Phase {
    /// No turn was begun yet.
    Fresh,
    /// A message was taken from the mailbox, and is not yet dispatched.
    Start { selector: Selector, args: Values },
    /// The message was dispatched, and these are the frames of its turn.
    Frames(Stack),
    /// The last turn has ended.
    Done(Outcome),
}

/// An actor's objects and the state of its turn. This is plain data: together with a class table and the actor's number it
/// determines the next step.
#[derive(Drop)]
pub struct Body {
    pub objects: Objects,
    pub phase: Phase,
}

/// What a step of a turn's frames leads to.
#[derive(Clone, Copy, PartialEq, Eq, Debug)]
pub enum Turn {
    /// The turn goes on.
    Goes,
    Ends(Outcome),
    /// No step was taken: the next one is an act, which the image does.
    Waits,
}

/// What came of an attempt to take a step.
#[derive(Clone, Copy, PartialEq, Eq, Debug)]
pub enum Stop {
    /// A step was taken.
    More,
    /// Nothing changed: no turn is going on.
    Ended,
    /// Nothing changed: the next step is an act, which the image does.
    Outer,
    /// Nothing changed: the claim has as many steps as it may have.
    Limit,
}

impl Body {
    /// A new actor's body: object 0 is of the class, with `slots` instance variables, all nil.
    pub fn fresh(alloc: Global, class: ClassId, slots: usize) -> Result<Body, AllocError>
        ensures { IfOk result (λ body. body ≡ record { objects = record { class = class; slots = replicate slots Nil } ∷ []; phase = phase.Fresh }) }
    {
        Ok(Body {
            objects: Objects::first(alloc, class, slots)?,
            phase: Phase::Fresh,
        })
    }

    /// Whether no turn is going on.
    #[inline(always)]
    pub fn is_idle(&self) -> bool
        ensures { result ≡ is_idle self.now.phase }
    {
        matches!(self.phase, Phase::Fresh | Phase::Done(_))
    }

    /// Begins a turn with a message, in place of what the body had of the last turn.
    pub fn begin(&mut self, selector: Selector, args: Values)
        ensures { self.new ≡ record self.old { phase = phase.Start selector args } }
    {
        self.phase = Phase::Start { selector, args };
    }
}
