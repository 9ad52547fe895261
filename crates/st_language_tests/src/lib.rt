//! Tests of the public calls of tokens, compiling, call sites and caches. They stand in a crate of their own, below images, so that no
//! library is proved twice for them, and that they are proved while the upper libraries still are.
#![tactic(auto)]

#[cfg(test)]
mod compiling;
#[cfg(test)]
mod lookups;
#[cfg(test)]
mod offsets;
#[cfg(test)]
mod refused;
#[cfg(test)]
mod sites;
#[cfg(test)]
mod tables;
#[cfg(test)]
mod tokens;
