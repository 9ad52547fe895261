//! The calls of an image, each behind a function without a contract: what a test does with several of them is then proved
//! in seconds, since its proof carries nothing of what an image promises.
use st_classes::refusals::Refusal;
use st_classes::seq::Seq;
use st_classes::values::{ActorId, ClassId, Selector};
use st_guard::caches::Caches;
use st_image::settings::Settings;
use st_script::images::{Guard, Image, Worker};
use st_turn::claim::Claim;
use std::alloc::{AllocError, Global};

/// The actor of the calls that name none.
pub(crate) const FIRST: ActorId = ActorId(0);

/// Puts an image on the heap: where one stands on the stack, the proof of each function that lets it go pays for all its parts. So it may
/// be a value of any type here.
fn boxed<T: Drop>(alloc: Global, image: T) -> Result<Box<T>, AllocError> {
    Ok(Box::new(alloc, image)?)
}

/// A new image with these numbers.
pub(crate) fn new_image(alloc: Global, settings: Settings) -> Result<Box<Image>, Refusal> {
    Ok(boxed(alloc, Image::new(alloc, settings)?)?)
}

/// Lets an image go. It may be a value of any type here too.
fn without<T: Drop>(_image: T, answer: Result<(), Refusal>) -> Result<(), Refusal> {
    answer
}

/// What a new image answers where its numbers are set to these.
pub(crate) fn set(alloc: Global, settings: Settings) -> Result<(), Refusal> {
    match Image::new(alloc, Settings::DEFAULT) {
        Ok(mut image) => {
            let answer = image.set(settings);
            without(image, answer)
        }
        Err(refusal) => Err(refusal),
    }
}

/// A class without instance variables of its own.
pub(crate) fn define(
    alloc: Global,
    image: &mut Image,
    name: &[u8],
    parent: ClassId,
) -> Result<u32, Refusal> {
    image.define(alloc, name, parent, Seq::from_vec(Vec::new(alloc)))
}

pub(crate) fn install(
    alloc: Global,
    image: &mut Image,
    class: ClassId,
    source: &str,
) -> Result<u32, Refusal> {
    image.install(alloc, class, source.as_bytes())
}

pub(crate) fn remove(
    alloc: Global,
    image: &mut Image,
    class: ClassId,
    selector: Selector,
) -> Result<u32, Refusal> {
    image.remove(alloc, class, selector)
}

pub(crate) fn reparent(
    alloc: Global,
    image: &mut Image,
    class: ClassId,
    parent: ClassId,
) -> Result<u32, Refusal> {
    image.reparent(alloc, class, parent)
}

pub(crate) fn intern(alloc: Global, image: &mut Image, text: &[u8]) -> Result<Selector, Refusal> {
    image.intern(alloc, text)
}

pub(crate) fn create(alloc: Global, image: &mut Image, class: ClassId) -> Result<ActorId, Refusal> {
    image.create(alloc, class)
}

/// The first message of a client, to the first actor and without arguments.
pub(crate) fn post(alloc: Global, image: &mut Image, selector: Selector) -> Result<u64, Refusal> {
    let none = Seq::from_vec(Vec::new(alloc));
    image.post(alloc, 1, 1, FIRST, selector, none)
}

/// The present world becomes the one that the image begins with.
pub(crate) fn checkpoint(alloc: Global, image: &mut Image) -> Result<(), Refusal> {
    match image.checkpoint(alloc) {
        Ok(()) => Ok(()),
        Err(_) => Err(Refusal::NoMemory),
    }
}

fn new_worker(alloc: Global) -> Result<Box<Worker>, AllocError> {
    boxed(alloc, Worker::new(Caches::new(alloc, Guard::new(alloc))?))
}

/// A claim of the first actor, of which a new worker has taken this many steps, or fewer if no step of the actor's own is next.
pub(crate) fn claim_of(alloc: Global, image: &mut Image, most: u32) -> Result<Box<Claim>, Refusal> {
    let mut claim = boxed(alloc, image.checkout(alloc, FIRST)?)?;
    let mut worker = new_worker(alloc)?;
    let _stop = worker.run(alloc, &mut claim, most)?;
    Ok(claim)
}

/// Commits a claim, or gives it back.
pub(crate) fn commit(alloc: Global, image: &mut Image, claim: Box<Claim>) -> Result<u32, Refusal> {
    match image.commit(alloc, Box::into_inner(claim)) {
        Ok(steps) => Ok(steps),
        Err((refusal, Some(claim))) => {
            image.release(claim);
            Err(refusal)
        }
        Err((refusal, None)) => Err(refusal),
    }
}

/// So many steps of the first actor at most, and the image's step where it comes next.
pub(crate) fn advance(alloc: Global, image: &mut Image, most: u32) -> Result<u32, Refusal> {
    let claim = claim_of(alloc, image, most)?;
    commit(alloc, image, claim)
}

/// The number of a name.
pub(crate) fn number_of(image: &Image, name: &[u8]) -> Option<Selector> {
    image.names().find(name)
}
