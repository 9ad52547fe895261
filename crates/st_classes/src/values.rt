//! Values, and the numbers that name things.
use crate::seq::Seq;

/// A class by its number, from 0 in order of definition. The first eight are the kernel's.
#[derive(Clone, Copy, PartialEq, Eq, PartialOrd, Ord, Hash, Debug)]
pub struct ClassId(pub u16);

/// A selector or a symbol by its number in the name table, from 0.
#[derive(Clone, Copy, PartialEq, Eq, Hash, Debug)]
pub struct Selector(pub u16);

/// An actor by its number, from 0 in order of creation.
#[derive(Clone, Copy, PartialEq, Eq, PartialOrd, Ord, Hash, Debug)]
pub struct ActorId(pub u32);

/// A method by its install's place, from 0, in the list of edits.
#[derive(Clone, Copy, PartialEq, Eq, Hash, Debug)]
pub struct MethodId(pub u32);

/// A value of the language.
#[derive(Clone, Copy, PartialEq, Eq, Debug)]
pub enum Value {
    /// A SmallInteger.
    Int(i64),
    Bool(bool),
    Nil,
    /// A symbol.
    Sym(Selector),
    Class(ClassId),
    /// A reference to an actor.
    Actor(ActorId),
    /// An object of the running actor, by its index in the actor's list. Object 0 is the actor itself.
    Local(u32),
}

/// A list of values.
pub type Values = Seq<Value>;
