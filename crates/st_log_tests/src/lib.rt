//! Tests of a log: all that a crash may leave of it at each moment, at small sizes, and each call of its device that fails. They stand
//! in a crate of their own, so that the library is not proved twice for them. The contracts say all of this but how many calls are
//! made and that they can succeed; the tests look at it from outside.
#![tactic(auto)]

#[cfg(test)]
mod crashes;
#[cfg(test)]
mod failures;
#[cfg(test)]
mod logs;
#[cfg(test)]
mod noted;
#[cfg(test)]
mod outcomes;
#[cfg(test)]
mod refused;
