//! From the source of a method to its tree: the whole grammar.
//!
//! A text is cut into tokens. A recursive descent, with one function for each form of the grammar, reads the tokens as a tree. No
//! text has two trees. Then the tree is checked against the rules beyond the grammar: where blocks and `super` may be, what may be
//! assigned to, and how arguments and temporaries may be named.
#![tactic(auto)]

mod characters;
pub mod faults;
pub mod inlining;
mod parser;
pub mod reader;
pub mod rules;
pub mod tokens;
pub mod trees;
