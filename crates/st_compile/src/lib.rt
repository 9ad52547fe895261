//! From trees to methods.
//!
//! [`compile::compile`] gives the method of a tree in a class. Its code is the tree's code, with arguments, temporaries and
//! instance variables replaced by their indexes, class names by their classes, and selectors and symbols by their numbers in the
//! name table. Its depths are the tree's, its sites are the places of its sends, and it suits the class. Names are only appended to
//! the name table.
//!
//! Except when memory runs out, a tree is refused exactly if a name means nothing, an argument or a temporary has the name of an
//! instance variable, the code is too large, or there is no room for its names. [`laws::codes_leave_one`] says of all code that
//! paths that meet bring the same number of operands.
//!
//! [`offsets::place_of`] says where in its source a send of a method stands. Nothing is proved of the place.
#![tactic(auto)]

pub mod compile;
mod depths;
mod emit;
pub mod laws;
mod locals;
pub mod names;
pub mod offsets;
mod refusing;
mod resolve;
mod scope;
mod sites;
mod words;
