//! Tests of a journal: what happens to an image is told, and done again on a new one. They stand in a crate of their own, so that the
//! library is not proved twice for them. The contracts say what is done again, and why an entry is refused, but not that anything is
//! accepted; nor do they say when steps are refused.
#![tactic(auto)]

#[cfg(test)]
mod files;
#[cfg(test)]
mod images;
#[cfg(test)]
mod lines;
#[cfg(test)]
mod ready;
#[cfg(test)]
mod redone;
#[cfg(test)]
mod refusals;
#[cfg(test)]
mod refused;
#[cfg(test)]
mod story;
