//! Random lists of events: systems beside their model.
use crate::lists::random_list;
use crate::model::{Done, Model, ModelActor};
use crate::workers::*;
use st_calls::calls::Call;
use st_classes::edits::Edit;
use st_classes::refusals::Refusal;
use st_classes::values::ActorId;
use st_guard::guard::Guard;
use st_image::history::Item;
use st_image::image::Image;
use st_mailbox::mailboxes::Mailbox;
use st_mailbox::messages::{Message, Sender};
use st_system::events::Event;
use st_system::system::System;
use st_turn::body::Outcome;
use std::alloc::{AllocError, Global};
use std::test::*;

/// How many names there are: the kernel's, and those of lists.
const NAMES: u32 = 29;

/// Whether an edit is the one that an event says.
fn is_edit_of(event: &Event, edit: &Edit) -> bool {
    match (event, edit) {
        (
            Event::Call(
                Call::Define {
                    name,
                    parent,
                    slots,
                },
            ),
            Edit::Define {
                name: edit_name,
                parent: edit_parent,
                slots: edit_slots,
            },
        ) => {
            name.as_slice() == edit_name.as_slice()
                && parent == edit_parent
                && slots.len() == edit_slots.len()
        }
        (
            Event::Call(Call::Install { class, source }),
            Edit::Install {
                class: edit_class,
                method,
            },
        ) => class == edit_class && source.as_slice() == method.source(),
        (
            Event::Call(Call::Remove { class, selector }),
            Edit::Remove {
                class: edit_class,
                selector: edit_selector,
            },
        ) => class == edit_class && selector == edit_selector,
        (
            Event::Call(Call::Reparent { class, parent }),
            Edit::Reparent {
                class: edit_class,
                parent: edit_parent,
            },
        ) => class == edit_class && parent == edit_parent,
        _ => false,
    }
}

/// Whether an item is that of an event.
fn is_item_of(event: &Event, item: &Item) -> bool {
    match (event, item) {
        (_, Item::Edited(edit)) => is_edit_of(event, edit.edit()),
        (Event::Call(Call::Create(class)), Item::Created(created)) => class == created,
        (
            Event::Call(
                Call::Post {
                    sender,
                    seq,
                    actor,
                    selector,
                    args,
                },
            ),
            Item::Posted {
                actor: posted_to,
                message,
            },
        ) => {
            actor == posted_to
                && message.sender == Sender::Client(*sender)
                && message.seq == *seq
                && message.selector == *selector
                && message.args.as_slice() == args.as_slice()
        }
        (Event::Call(Call::Close(actor)), Item::Closed(closed)) => actor == closed,
        _ => false,
    }
}

/// Whether an item is that of the model.
fn is_done(events: &[Event], done: Done, item: &Item) -> bool {
    match (done, item) {
        (Done::Begun(actor), Item::Begun(begun)) => actor == *begun,
        (
            Done::Ran(actor, steps),
            Item::Ran {
                actor: ran,
                steps: taken,
            },
        ) => actor == *ran && steps == *taken,
        (Done::Event(place), _) => match events.get(place) {
            Some(event) => is_item_of(event, item),
            None => false,
        },
        _ => false,
    }
}

fn is_same_history(events: &[Event], model: &[Done], history: &[Item]) -> bool {
    for (done, item) in model.iter().zip(history) {
        if !is_done(events, *done, item) {
            return false;
        }
    }
    model.len() == history.len()
}

/// Up to which edit of the class table the events that happened say, one after another, those behind this many edits.
fn same_edits<M: Mailbox>(events: &[Event], model: &[Done], before: u32, image: &Image<M>) -> u32 {
    let mut place = before;
    for done in model {
        if let Done::Event(event) = *done
            && is_edit_at(events, event, image, place)
        {
            place = place.saturating_add(1);
        }
    }
    place
}

/// Whether an event is the edit at a place of the class table.
fn is_edit_at<M: Mailbox>(events: &[Event], event: usize, image: &Image<M>, place: u32) -> bool {
    match (events.get(event), edit(image, place)) {
        (Some(event), Some(edit)) => is_edit_of(event, edit),
        _ => false,
    }
}

pub(crate) fn is_same_message(one: &Message, other: &Message) -> bool {
    one.sender == other.sender
        && one.seq == other.seq
        && one.selector == other.selector
        && one.args.as_slice() == other.args.as_slice()
}

/// Whether messages wait in a mailbox in the model's order.
fn is_same_pending<M: Mailbox>(mailbox: &M, messages: &[Message]) -> bool {
    let mut place = 0;
    for message in messages {
        match item(mailbox, place) {
            Some(item) if is_same_message(item, message) => {}
            _ => return false,
        }
        place = place.saturating_add(1);
    }
    waiting(mailbox) == messages.len()
}

/// How a turn ended: the newest 64 are kept. The first is number 1, or 0 if the actor had begun one before the last checkpoint.
fn model_outcome(kept: &ModelActor, turn: usize) -> Result<Outcome, Refusal> {
    let number = turn.saturating_add(usize::from(kept.has_turn_0));
    if number == 0 || number.saturating_add(64) <= kept.results.len() {
        return Err(Refusal::Expired);
    }
    match kept.results.get(number.saturating_sub(1)) {
        Some(outcome) => Ok(*outcome),
        None => Err(Refusal::Pending),
    }
}

/// Whether the turns of an actor ended alike, up to one that has not begun.
fn is_same_outcomes<M: Mailbox>(image: &Image<M>, actor: ActorId, kept: &ModelActor) -> bool {
    for turn in 0..kept.accepted.len().saturating_add(2) {
        if outcome(image, actor, turn as u64) != model_outcome(kept, turn) {
            return false;
        }
    }
    true
}

/// In what a mailbox differs.
fn mailbox_difference<M: Mailbox>(mailbox: &M, kept: &ModelActor) -> Option<&'static str> {
    if !is_same_pending(mailbox, kept.pending()) {
        Some("pending messages")
    } else if is_open(mailbox) != kept.is_open {
        Some("flags")
    } else {
        None
    }
}

/// In what an actor differs beside its body and its mailbox.
fn record_difference<M: Mailbox>(
    image: &Image<M>,
    actor: ActorId,
    kept: &ModelActor,
) -> Option<&'static str> {
    if class_and_last(image, actor) != (Some(kept.class), Some(kept.last)) {
        Some("classes or numbers")
    } else if !is_same_outcomes(image, actor, kept) {
        Some("outcomes")
    } else {
        None
    }
}

/// In what an actor differs.
fn actor_difference<M: Mailbox>(
    image: &Image<M>,
    actor: ActorId,
    kept: &ModelActor,
) -> Option<&'static str> {
    match (body(image, actor), mailbox(image, actor)) {
        (Some(body), Some(mailbox)) if is_same_body(body, &kept.body) => {
            mailbox_difference(mailbox, kept).or(record_difference(image, actor, kept))
        }
        (Some(_), Some(_)) => Some("bodies"),
        _ => Some("actors"),
    }
}

/// In what some actor differs.
fn actors_difference<M: Mailbox>(image: &Image<M>, actors: &[ModelActor]) -> Option<&'static str> {
    let mut number = 0;
    for kept in actors {
        let difference = actor_difference(image, ActorId(number), kept);
        if difference.is_some() {
            return difference;
        }
        number = number.saturating_add(1);
    }
    None
}

/// In what an image's history or edits differ from the model's.
fn history_difference<M: Mailbox>(
    image: &Image<M>,
    model: &Model,
    events: &[Event],
) -> Option<&'static str> {
    let done = model.history.as_slice();
    if !is_same_history(events, done, history(image)) {
        return Some("histories");
    }
    let (edits, _, _) = counts(image);
    if same_edits(events, done, model.edits_before, image) != edits {
        return Some("edits");
    }
    None
}

/// Whether an image has other numbers of edits, names or actors.
fn has_other_counts<M: Mailbox>(image: &Image<M>, edits: u32, actors: usize) -> bool {
    let (the_edits, the_names, the_actors) = counts(image);
    the_edits != edits || the_names != NAMES || the_actors as usize != actors
}

/// In what an image differs from the model.
fn image_difference<M: Mailbox>(
    image: &Image<M>,
    model: &Model,
    events: &[Event],
) -> Option<&'static str> {
    let first = history_difference(image, model, events);
    if first.is_some() {
        return first;
    }
    if has_other_counts(image, model.edits, model.actors.len()) {
        return Some("counts");
    }
    actors_difference(image, model.actors.as_slice())
}

/// The first event after which a system differs from its model, and in what. After the last one all that the image has is compared.
fn first_difference<M: Mailbox, G: Guard>(
    alloc: Global,
    system: &mut System<M, G>,
    model: &mut Model,
    events: &[Event],
) -> Option<(usize, &'static str)> {
    for (place, event) in events.iter().enumerate() {
        let answer = apply(alloc, system, event);
        if model.apply(alloc, place, event, image(system)) != answer {
            return Some((place, "answers"));
        }
    }
    Some((
        events.len(),
        image_difference(image(system), model, events)?,
    ))
}

/// A model is put on the heap as systems are.
fn new_model(alloc: Global) -> Result<Box<Model>, AllocError> {
    Ok(Box::new(alloc, Model::new(alloc, 3)?)?)
}

/// The same for a new model.
fn difference_from_model<M: Mailbox, G: Guard>(
    alloc: Global,
    system: &mut System<M, G>,
    events: &[Event],
) -> Result<Option<(usize, &'static str)>, AllocError> {
    let mut model = new_model(alloc)?;
    Ok(first_difference(alloc, system, &mut model, events))
}

/// The same for the list of a seed.
fn difference_beside<M: Mailbox, G: Guard>(
    alloc: Global,
    system: &mut System<M, G>,
    seed: u64,
) -> Result<Option<(usize, &'static str)>, Refusal> {
    let events = random_list(alloc, seed, 600)?;
    Ok(difference_from_model(alloc, system, events.as_slice())?)
}

/// The same of a new system, whose mailboxes are queues for three messages.
fn difference_of_queues(
    alloc: Global,
    seed: u64,
) -> Result<Option<(usize, &'static str)>, Refusal> {
    let mut system = new_queues(alloc)?;
    difference_beside(alloc, &mut system, seed)
}

/// The same of a new system, whose mailboxes are rings for three messages.
fn difference_of_rings(alloc: Global, seed: u64) -> Result<Option<(usize, &'static str)>, Refusal> {
    let mut system = new_rings(alloc)?;
    difference_beside(alloc, &mut system, seed)
}

#[test]
fn random_events(rt: HostRuntime) -> Result<(), Fail> {
    for seed in 0..24 {
        let queues = difference_of_queues(rt.alloc(), seed)?;
        assert!(rt; queues.is_none(), "queues, seed {seed}: {queues:?}");
        let rings = difference_of_rings(rt.alloc(), seed)?;
        assert!(rt; rings.is_none(), "rings, seed {seed}: {rings:?}");
    }
    Ok(())
}
