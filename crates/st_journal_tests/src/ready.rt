//! Whom a worker takes next of an image that has done entries again.
use crate::images::{
    Image, Worker, new_image, new_worker, next_ready, post, quantum, redone, told_since,
};
use crate::story::{FIRST, GO, set_up};
use st_classes::refusals::Refusal;
use st_classes::values::ActorId;
use st_journal::entries::Entry;
use std::alloc::Global;
use std::test::*;

/// How far a worker goes in each of the four quanta of a story's turns.
const LIMITS: &[u32] = &[3, 9, 2, 9];

fn limits() -> &'static [u32] {
    LIMITS
}

/// A message is posted, and so many quanta are taken behind it.
fn go_some_way(
    alloc: Global,
    image: &mut Image,
    worker: &mut Worker,
    quanta: usize,
) -> Result<(), Refusal> {
    set_up(alloc, image)?;
    post(alloc, image, FIRST, 1, GO)?;
    for limit in limits().iter().take(quanta) {
        quantum(alloc, image, worker, FIRST, *limit)?;
    }
    Ok(())
}

/// The entries of an image that has gone some way.
fn told_some_way(alloc: Global, quanta: usize) -> Result<Vec<Entry>, Refusal> {
    let mut image = new_image(alloc)?;
    let mut worker = new_worker(alloc)?;
    go_some_way(alloc, &mut image, &mut worker, quanta)?;
    Ok(told_since(alloc, &image, 22, 0)?)
}

/// Whom a worker takes next of a new image that has done entries again.
fn next_behind(alloc: Global, entries: &[Entry]) -> Result<Option<ActorId>, Refusal> {
    let mut image = new_image(alloc)?;
    let mut worker = new_worker(alloc)?;
    match redone(alloc, &mut image, &mut worker, entries) {
        Ok(()) => Ok(next_ready(&image)),
        Err(_) => Err(Refusal::Changed),
    }
}

/// The same, behind so many quanta.
fn next_some_way(alloc: Global, quanta: usize) -> Result<Option<ActorId>, Refusal> {
    let entries = told_some_way(alloc, quanta)?;
    next_behind(alloc, &entries)
}

/// A message waits behind none of the quanta, and behind the second one; behind the first and the third one a turn is in the middle.
#[test]
fn an_actor_in_a_turn_or_with_a_message(rt: HostRuntime) -> Result<(), Fail> {
    for quanta in 0..4 {
        assert_eq!(rt; next_some_way(rt.alloc(), quanta)?, Some(FIRST));
    }
    assert_eq!(rt; next_some_way(rt.alloc(), 4)?, None);
    Ok(())
}
