//! Tests of the steps of workers: by rows, one by one, and against the plain step. They stand in a crate of their own, so that the
//! library is not proved twice for them.
#![tactic(auto)]

#[cfg(test)]
mod agree;
#[cfg(test)]
mod images;
#[cfg(test)]
mod moves;
#[cfg(test)]
mod plain;
#[cfg(test)]
mod refused;
#[cfg(test)]
mod sums;
#[cfg(test)]
mod workers;
