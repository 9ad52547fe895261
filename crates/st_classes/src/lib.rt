//! Values, names, methods and the versioned class table: the lowest layer.
//!
//! A [`version::Version`] is a list of edits, with a row for each class. Its answers follow from its edits: `find` is the target of
//! the walk up the superclass chain, and `with_edit` adds one edit or says why it is refused.
#![tactic(auto)]

mod accepting;
mod class_index;
mod class_rows;
pub mod code;
pub mod counted_rows;
mod depths;
pub mod edits;
pub mod faults;
pub mod instructions;
pub mod kernel;
pub mod keys;
pub mod laws;
pub mod limits;
mod method_map;
pub mod methods;
mod name_table;
pub mod names;
pub mod refusals;
mod same;
pub mod selectors;
pub mod seq;
pub mod superinstructions;
pub mod token;
pub mod values;
pub mod version;
