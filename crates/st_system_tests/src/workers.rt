//! Systems of three workers, with mailboxes and guards of any kind. Each call stands behind a function without a contract, so that no
//! proof carries anything of it.
use crate::lists::names;
use st_classes::edits::Edit;
use st_classes::refusals::Refusal;
use st_classes::values::{ActorId, ClassId, Selector};
use st_file::saving::save;
use st_guard::caches::Caches;
use st_guard::global_guard::GlobalGuard;
use st_guard::guard::Guard;
use st_guard::switch_guard::SwitchGuard;
use st_image::history::Item;
use st_image::image::Image;
use st_image::settings::Settings;
use st_mailbox::list_box::ListBox;
use st_mailbox::mailboxes::Mailbox;
use st_mailbox::messages::Message;
use st_mailbox::ring_box::RingBox;
use st_system::events::{Answer, Event};
use st_system::system::System;
use st_turn::body::{Body, Outcome};
use st_turn::worker::Worker;
use st_wire::streams::MemoryOutput;
use std::alloc::{AllocError, Global};

/// What an event answers.
pub(crate) type Answered = Result<Answer, Refusal>;

/// Workers whose caches are emptied by every edit.
pub(crate) fn global_workers(
    alloc: Global,
    count: u32,
) -> Result<Vec<Worker<GlobalGuard>>, AllocError> {
    let mut workers = Vec::new(alloc);
    for _ in 0..count {
        workers.push(Worker::new(Caches::new(alloc, GlobalGuard::new())?))?;
    }
    Ok(workers)
}

/// Workers whose caches keep, over an edit, what it does not touch.
pub(crate) fn switch_workers(
    alloc: Global,
    count: u32,
) -> Result<Vec<Worker<SwitchGuard>>, AllocError> {
    let mut workers = Vec::new(alloc);
    for _ in 0..count {
        workers.push(Worker::new(Caches::new(alloc, SwitchGuard::new(alloc))?))?;
    }
    Ok(workers)
}

/// Puts an image on the heap: where one stands on the stack, the proof of each function that lets it go pays for all its parts. So it
/// is with systems.
fn boxed<M: Mailbox>(alloc: Global, image: Image<M>) -> Result<Box<Image<M>>, AllocError> {
    Ok(Box::new(alloc, image)?)
}

/// A new image whose mailboxes hold this many messages, with the names of lists.
fn new_image<M: Mailbox>(alloc: Global, capacity: u32) -> Result<Box<Image<M>>, Refusal> {
    let settings = Settings {
        capacity,
        history: 1_000_000,
    };
    let mut image = boxed(alloc, Image::new(alloc, settings)?)?;
    for name in names() {
        image.intern(alloc, name.as_bytes())?;
    }
    Ok(image)
}

/// A system of an image and workers without claims.
pub(crate) fn system_of<M: Mailbox, G: Guard>(
    alloc: Global,
    image: Image<M>,
    workers: Vec<Worker<G>>,
) -> Result<Box<System<M, G>>, AllocError> {
    let system = System::new(alloc, image, workers)?;
    Ok(Box::new(alloc, system)?)
}

/// A system of such an image.
fn new_system<M: Mailbox, G: Guard>(
    alloc: Global,
    capacity: u32,
    workers: Vec<Worker<G>>,
) -> Result<Box<System<M, G>>, Refusal> {
    let image = new_image(alloc, capacity)?;
    Ok(system_of(alloc, Box::into_inner(image), workers)?)
}

/// A new system whose mailboxes are queues for three messages.
pub(crate) fn new_queues(alloc: Global) -> Result<Box<System<ListBox, GlobalGuard>>, Refusal> {
    new_system(alloc, 3, global_workers(alloc, 3)?)
}

/// A new system whose mailboxes are rings for three messages.
pub(crate) fn new_rings(alloc: Global) -> Result<Box<System<RingBox, SwitchGuard>>, Refusal> {
    new_system(alloc, 3, switch_workers(alloc, 3)?)
}

pub(crate) fn apply<M: Mailbox, G: Guard>(
    alloc: Global,
    system: &mut System<M, G>,
    event: &Event,
) -> Answered {
    system.apply(alloc, event)
}

pub(crate) fn image<M: Mailbox, G: Guard>(system: &System<M, G>) -> &Image<M> {
    system.image()
}

pub(crate) fn history<M: Mailbox>(image: &Image<M>) -> &[Item] {
    image.history()
}

/// The edit of the class table at a place.
pub(crate) fn edit<M: Mailbox>(image: &Image<M>, place: u32) -> Option<&Edit> {
    image.version().edit(place)
}

/// How many edits, names and actors an image has.
pub(crate) fn counts<M: Mailbox>(image: &Image<M>) -> (u32, u32, u32) {
    (image.version().edits(), image.names().len(), image.actors())
}

/// The body of an actor, if it is there.
pub(crate) fn body<M: Mailbox>(image: &Image<M>, actor: ActorId) -> Option<&Body> {
    image.body(actor)
}

/// The mailbox of an actor, if it is there.
pub(crate) fn mailbox<M: Mailbox>(image: &Image<M>, actor: ActorId) -> Option<&M> {
    image.mailbox(actor)
}

/// The class of an actor, and the number of the last message that it sent.
pub(crate) fn class_and_last<M: Mailbox>(
    image: &Image<M>,
    actor: ActorId,
) -> (Option<ClassId>, Option<u64>) {
    (image.class(actor), image.last_sent(actor))
}

/// How a turn of an actor ended.
pub(crate) fn outcome<M: Mailbox>(
    image: &Image<M>,
    actor: ActorId,
    turn: u64,
) -> Result<Outcome, Refusal> {
    image.outcome(actor, turn)
}

/// A message that waits in a mailbox.
pub(crate) fn item<M: Mailbox>(mailbox: &M, place: u32) -> Option<&Message> {
    mailbox.item(place)
}

/// How many messages wait in a mailbox.
pub(crate) fn waiting<M: Mailbox>(mailbox: &M) -> usize {
    mailbox.len() as usize
}

pub(crate) fn is_open<M: Mailbox>(mailbox: &M) -> bool {
    mailbox.is_open()
}

/// Whether two bodies are the same.
pub(crate) fn is_same_body(one: &Body, other: &Body) -> bool {
    one.is_same(other)
}

/// How many messages wait in a mailbox, how many it holds, and whether it is open.
pub(crate) fn shape<M: Mailbox>(mailbox: &M) -> (u32, u32, bool) {
    (mailbox.len(), mailbox.capacity(), mailbox.is_open())
}

/// Whether two images have the same edits.
pub(crate) fn has_same_edits<M: Mailbox, N: Mailbox>(one: &Image<M>, other: &Image<N>) -> bool {
    one.version().begins(other.version()) && other.version().begins(one.version())
}

/// Whether two images have the same clients, with the same last numbers.
pub(crate) fn has_same_clients<M: Mailbox, N: Mailbox>(
    alloc: Global,
    one: &Image<M>,
    other: &Image<N>,
) -> bool {
    match (one.clients(alloc), other.clients(alloc)) {
        (Ok(one), Ok(other)) => one.as_slice() == other.as_slice(),
        _ => false,
    }
}

/// The text of an image's document, as its file has it.
fn document<M: Mailbox>(alloc: Global, image: &Image<M>) -> Result<MemoryOutput, Refusal> {
    let mut output = MemoryOutput::new(alloc);
    save(alloc, image, &mut output)?;
    Ok(output)
}

/// Whether the documents of two images have the same text.
pub(crate) fn has_same_document<M: Mailbox, N: Mailbox>(
    alloc: Global,
    one: &Image<M>,
    other: &Image<N>,
) -> Result<bool, Refusal> {
    let one = document(alloc, one)?;
    let other = document(alloc, other)?;
    Ok(one.as_slice() == other.as_slice())
}

/// The actor that is to be checked out next.
pub(crate) fn next_ready<M: Mailbox>(image: &Image<M>) -> Option<ActorId> {
    image.next_ready()
}

/// How many sends of a method were counted, or why none is told.
pub(crate) fn sends<M: Mailbox>(
    alloc: Global,
    image: &Image<M>,
    class: ClassId,
    selector: Selector,
) -> Result<u64, Refusal> {
    let mut sends = 0u64;
    for site in &image.stats(alloc, class, selector)? {
        let tally = site.tally;
        for count in [tally.by_site, tally.by_global, tally.by_walk] {
            sends = sends.saturating_add(count);
        }
    }
    Ok(sends)
}
