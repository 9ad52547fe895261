//! Tests of a pool, with threads. What a test does stands in a scene: what callers do while workers run, and what they must see. All
//! scenes are played by one function, since the proof of each function that starts threads or settles is dear.
#![tactic(auto)]

#[cfg(test)]
mod by_callers;
#[cfg(test)]
mod calls;
#[cfg(test)]
mod crowd;
#[cfg(test)]
mod doors;
#[cfg(test)]
mod edits;
#[cfg(test)]
mod failing_session;
#[cfg(test)]
mod full;
#[cfg(test)]
mod many;
#[cfg(test)]
mod overlap;
#[cfg(test)]
mod plays;
#[cfg(test)]
mod pools;
#[cfg(test)]
mod refused;
#[cfg(test)]
mod scenes;
#[cfg(test)]
mod waking;
