//! Tests of systems: single events, random lists of events beside a model of plain lists, and one list on two kinds of mailbox. They
//! stand in a crate of their own, so that the library is not proved twice for them.
#![tactic(auto)]

#[cfg(test)]
mod beside;
#[cfg(test)]
mod boxes;
#[cfg(test)]
mod by_events;
#[cfg(test)]
mod dice;
#[cfg(test)]
mod events;
#[cfg(test)]
mod lists;
#[cfg(test)]
mod model;
#[cfg(test)]
mod refused;
#[cfg(test)]
mod rounds;
#[cfg(test)]
mod workers;
