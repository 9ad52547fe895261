//! A list of events on two systems with mailboxes and guards of other kinds: each event answers the same, and after it the images show
//! the same and have documents of the same text.
use crate::beside::is_same_message;
use crate::rounds::{BUSY, events_of_rounds};
use crate::workers::*;
use st_classes::refusals::Refusal;
use st_classes::values::{ActorId, ClassId, Selector};
use st_guard::guard::Guard;
use st_image::history::Item;
use st_image::image::Image;
use st_mailbox::mailboxes::Mailbox;
use st_system::events::Event;
use st_system::system::System;
use std::alloc::Global;
use std::test::*;

/// Whether two items are the same. Edits are compared elsewhere.
fn is_same_item(one: &Item, other: &Item) -> bool {
    match (one, other) {
        (Item::Edited(_), Item::Edited(_)) => true,
        (Item::Created(one), Item::Created(other)) => one == other,
        (Item::Closed(one), Item::Closed(other)) => one == other,
        (Item::Begun(one), Item::Begun(other)) => one == other,
        (
            Item::Posted { actor, message },
            Item::Posted {
                actor: other_actor,
                message: other_message,
            },
        ) => actor == other_actor && is_same_message(message, other_message),
        (
            Item::Ran { actor, steps },
            Item::Ran {
                actor: other_actor,
                steps: other_steps,
            },
        ) => actor == other_actor && steps == other_steps,
        _ => false,
    }
}

fn is_same_history(one: &[Item], other: &[Item]) -> bool {
    for (one, other) in one.iter().zip(other) {
        if !is_same_item(one, other) {
            return false;
        }
    }
    one.len() == other.len()
}

/// Whether the same messages wait in two mailboxes, which hold as many and are both open or both closed.
fn is_same_mailbox<M: Mailbox, N: Mailbox>(one: &M, other: &N) -> bool {
    for place in 0..4 {
        let is_same = match (item(one, place), item(other, place)) {
            (Some(one), Some(other)) => is_same_message(one, other),
            (None, None) => true,
            _ => false,
        };
        if !is_same {
            return false;
        }
    }
    shape(one) == shape(other)
}

/// Whether the turns of an actor ended alike.
fn is_same_outcomes<M: Mailbox, N: Mailbox>(
    one: &Image<M>,
    other: &Image<N>,
    actor: ActorId,
) -> bool {
    for turn in 0..40 {
        if outcome(one, actor, turn) != outcome(other, actor, turn) {
            return false;
        }
    }
    true
}

/// Whether an actor is the same in two images.
fn is_same_actor<M: Mailbox, N: Mailbox>(one: &Image<M>, other: &Image<N>, actor: ActorId) -> bool {
    let (Some(one_body), Some(other_body)) = (body(one, actor), body(other, actor)) else {
        return false;
    };
    let (Some(one_box), Some(other_box)) = (mailbox(one, actor), mailbox(other, actor)) else {
        return false;
    };
    is_same_body(one_body, other_body)
        && is_same_mailbox(one_box, other_box)
        && class_and_last(one, actor) == class_and_last(other, actor)
        && is_same_outcomes(one, other, actor)
}

/// Whether all actors are the same in two images.
fn has_same_actors<M: Mailbox, N: Mailbox>(one: &Image<M>, other: &Image<N>) -> bool {
    let (_, _, actors) = counts(one);
    for actor in 0..actors {
        if !is_same_actor(one, other, ActorId(actor)) {
            return false;
        }
    }
    counts(one) == counts(other)
}

/// Whether the sends of all methods of the list were counted alike.
fn has_same_sends<M: Mailbox, N: Mailbox>(alloc: Global, one: &Image<M>, other: &Image<N>) -> bool {
    for class in [1, 8, 9] {
        for selector in 22..29 {
            let (class, selector) = (ClassId(class), Selector(selector));
            if sends(alloc, one, class, selector) != sends(alloc, other, class, selector) {
                return false;
            }
        }
    }
    true
}

/// In what two images differ.
pub(crate) fn difference<M: Mailbox, N: Mailbox>(
    alloc: Global,
    one: &Image<M>,
    other: &Image<N>,
) -> Option<&'static str> {
    if !is_same_history(history(one), history(other)) {
        return Some("histories");
    }
    if !has_same_edits(one, other) {
        return Some("edits");
    }
    if !has_same_actors(one, other) {
        return Some("actors");
    }
    if !has_same_clients(alloc, one, other) {
        return Some("clients");
    }
    if !has_same_sends(alloc, one, other) {
        return Some("sends");
    }
    if next_ready(one) != next_ready(other) {
        return Some("next ready actors");
    }
    None
}

/// The first event that two systems answer differently, or after which their images differ, and in what.
fn first_difference<M: Mailbox, G: Guard, N: Mailbox, H: Guard>(
    alloc: Global,
    one: &mut System<M, G>,
    other: &mut System<N, H>,
    events: &[Event],
) -> Option<(usize, &'static str)> {
    for (place, event) in events.iter().enumerate() {
        if apply(alloc, one, event) != apply(alloc, other, event) {
            return Some((place, "answers"));
        }
        if let Some(difference) = difference(alloc, image(one), image(other)) {
            return Some((place, difference));
        }
        if has_same_document(alloc, image(one), image(other)) != Ok(true) {
            return Some((place, "documents"));
        }
    }
    None
}

/// The same of a system with queues for three messages and one with rings.
fn difference_of_boxes(
    alloc: Global,
    events: &[Event],
) -> Result<Option<(usize, &'static str)>, Refusal> {
    let mut queues = new_queues(alloc)?;
    let mut rings = new_rings(alloc)?;
    Ok(first_difference(alloc, &mut queues, &mut rings, events))
}

/// How many messages an actor has begun.
fn begun(items: &[Item], actor: ActorId) -> usize {
    items
        .iter()
        .filter(|item| matches!(item, Item::Begun(begun) if *begun == actor))
        .count()
}

/// What a list does to the rings of three places: how many of its events are refused as `Full`, how many as `Closed`, and how many
/// messages the busy actor begins.
fn work_of(alloc: Global, events: &[Event]) -> Result<(u32, u32, usize), Refusal> {
    let mut system = new_rings(alloc)?;
    let (mut full, mut closed) = (0u32, 0u32);
    for event in events {
        match apply(alloc, &mut system, event) {
            Err(Refusal::Full) => full = full.saturating_add(1),
            Err(Refusal::Closed) => closed = closed.saturating_add(1),
            _ => {}
        }
    }
    Ok((full, closed, begun(history(image(&system)), BUSY)))
}

/// How many events the list has, the first difference, and what the list does.
type Both = (usize, Option<(usize, &'static str)>, (u32, u32, usize));

fn of_rounds(alloc: Global) -> Result<Both, Refusal> {
    let events = events_of_rounds(alloc)?;
    let difference = difference_of_boxes(alloc, &events)?;
    let work = work_of(alloc, &events)?;
    Ok((events.len(), difference, work))
}

/// 33 messages go through a ring of three places, which is eleven times round.
#[test]
fn both_boxes(rt: HostRuntime) {
    assert_eq!(rt; of_rounds(rt.alloc()), Ok((200, None, (10, 4, 33))));
}
