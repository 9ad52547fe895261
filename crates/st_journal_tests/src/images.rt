//! Images and workers, each call of which stands behind a function without a contract: what a test does with several of them is then
//! proved in seconds.
use st_classes::refusals::Refusal;
use st_classes::seq::Seq;
use st_classes::values::{ActorId, ClassId, Selector};
use st_file::files::value_of_bytes;
use st_guard::caches::Caches;
use st_guard::global_guard::GlobalGuard;
use st_image::settings::Settings;
use st_journal::entries::Entry;
use st_journal::lines::{can_be_line, line_of, write_lines};
use st_journal::reading::read_entry;
use st_journal::redo_error::{RedoError, RefusedEntry, RefusedLine};
use st_journal::redoing::lines::redo_text;
use st_journal::redoing::{redo, redo_all};
use st_journal::telling::tell_since;
use st_mailbox::ring_box::RingBox;
use st_wire::streams::{MemoryOutput, WriteFailed};
use std::alloc::{AllocError, Global};

pub(crate) type Image = st_image::image::Image<RingBox>;

pub(crate) type Worker = st_turn::worker::Worker<GlobalGuard>;

/// Puts a value on the heap. It may be of any type, since the proof of a function that lets an image or entries go pays for all their
/// parts.
fn on_heap<T: Drop>(alloc: Global, value: T) -> Result<Box<T>, Refusal> {
    match Box::new(alloc, value) {
        Ok(value) => Ok(value),
        Err(_) => Err(Refusal::NoMemory),
    }
}

pub(crate) fn new_image(alloc: Global) -> Result<Box<Image>, Refusal> {
    let image = Image::new(alloc, Settings::DEFAULT)?;
    on_heap(alloc, image)
}

pub(crate) fn new_worker(alloc: Global) -> Result<Box<Worker>, Refusal> {
    let caches = Caches::new(alloc, GlobalGuard::new())?;
    on_heap(alloc, Worker::new(caches))
}

pub(crate) fn text(alloc: Global, text: &str) -> Result<Seq<u8>, AllocError> {
    Ok(Seq::from_vec(Vec::from_slice(alloc, text.as_bytes())?))
}

pub(crate) fn define(
    alloc: Global,
    image: &mut Image,
    name: &str,
    parent: ClassId,
) -> Result<u32, Refusal> {
    let none = Seq::from_vec(Vec::new(alloc));
    image.define(alloc, name.as_bytes(), parent, none)
}

pub(crate) fn install(
    alloc: Global,
    image: &mut Image,
    class: ClassId,
    source: &str,
) -> Result<u32, Refusal> {
    image.install(alloc, class, source.as_bytes())
}

pub(crate) fn remove(
    alloc: Global,
    image: &mut Image,
    class: ClassId,
    selector: Selector,
) -> Result<u32, Refusal> {
    image.remove(alloc, class, selector)
}

pub(crate) fn reparent(
    alloc: Global,
    image: &mut Image,
    class: ClassId,
    parent: ClassId,
) -> Result<u32, Refusal> {
    image.reparent(alloc, class, parent)
}

pub(crate) fn create(alloc: Global, image: &mut Image, class: ClassId) -> Result<ActorId, Refusal> {
    image.create(alloc, class)
}

/// A message without arguments of client 1.
pub(crate) fn post(
    alloc: Global,
    image: &mut Image,
    actor: ActorId,
    seq: u64,
    selector: Selector,
) -> Result<u64, Refusal> {
    let none = Seq::from_vec(Vec::new(alloc));
    image.post(alloc, 1, seq, actor, selector, none)
}

pub(crate) fn close(image: &mut Image, actor: ActorId) -> Result<(), Refusal> {
    image.close(actor)
}

/// A quantum of at most this many steps before an act, with the act if it comes next; how many steps that were.
pub(crate) fn quantum(
    alloc: Global,
    image: &mut Image,
    worker: &mut Worker,
    actor: ActorId,
    limit: u32,
) -> Result<u32, Refusal> {
    let mut claim = image.checkout(alloc, actor)?;
    worker.run(alloc, &mut claim, limit)?;
    match image.commit(alloc, claim) {
        Ok(steps) => Ok(steps),
        Err((refusal, _)) => Err(refusal),
    }
}

pub(crate) fn checkpoint(alloc: Global, image: &mut Image) -> Result<(), Refusal> {
    Ok(image.checkpoint(alloc)?)
}

/// How many names there are, and how many items.
pub(crate) fn lengths(image: &Image) -> (u32, usize) {
    (image.names().len(), image.history().len())
}

/// The actor that a worker would take next.
pub(crate) fn next_ready(image: &Image) -> Option<ActorId> {
    image.next_ready()
}

/// The entries that tell what happened since there were so many names and items.
pub(crate) fn told_since(
    alloc: Global,
    image: &Image,
    names: u32,
    items: usize,
) -> Result<Vec<Entry>, AllocError> {
    let history = image.history();
    if history.len() < items {
        return Ok(Vec::new(alloc));
    }
    tell_since(alloc, image.names(), names, &history[items..])
}

pub(crate) fn redone(
    alloc: Global,
    image: &mut Image,
    worker: &mut Worker,
    entries: &[Entry],
) -> Result<(), RefusedEntry> {
    redo_all(alloc, image, worker, entries)
}

pub(crate) fn redone_one(
    alloc: Global,
    image: &mut Image,
    worker: &mut Worker,
    entry: &Entry,
) -> Result<(), RedoError> {
    redo(alloc, image, worker, entry)
}

/// The line of an entry on an image.
pub(crate) fn line(alloc: Global, image: &Image, entry: &Entry) -> Result<Vec<u8>, AllocError> {
    if can_be_line(entry) {
        line_of(alloc, image.names(), image.version(), entry)
    } else {
        Err(AllocError)
    }
}

/// The lines of entries on an image.
pub(crate) fn lines(
    alloc: Global,
    image: &Image,
    entries: &[Entry],
) -> Result<MemoryOutput, WriteFailed> {
    let mut output = MemoryOutput::new(alloc);
    write_lines(alloc, image.names(), image.version(), entries, &mut output)?;
    Ok(output)
}

/// The entry that a line says on an image.
pub(crate) fn read(alloc: Global, image: &Image, line: &str) -> Result<Entry, Refusal> {
    let value = value_of_bytes(alloc, line.as_bytes())?;
    read_entry(alloc, image.names(), image.version(), &value)
}

pub(crate) fn redone_text(
    alloc: Global,
    image: &mut Image,
    worker: &mut Worker,
    text: &[u8],
) -> Result<(), RefusedLine> {
    redo_text(alloc, image, worker, text)
}
