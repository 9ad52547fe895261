//! Images with six classes of the user's, and their calls, each behind a function without a contract: what a test does with several of
//! them is then proved in seconds, since its proof carries nothing of what an image promises.
use st_classes::kernel::OBJECT;
use st_classes::refusals::Refusal;
use st_classes::seq::Seq;
use st_classes::values::{ActorId, ClassId, Selector};
use st_image::settings::Settings;
use st_mailbox::list_box::ListBox;
use st_turn::body::Outcome;
use st_turn::claim::Claim;
use std::alloc::{AllocError, Global};

pub(crate) type Image = st_image::image::Image<ListBox>;

/// The first actor, which is of class A.
pub(crate) const FIRST: ActorId = ActorId(0);

const A: ClassId = ClassId(8);

/// `go`, the first name of the user's.
const GO: Selector = Selector(22);

/// The classes of the user's in order, with their superclasses and their own instance variables.
const CLASSES: &[(&str, ClassId, &str)] = &[
    ("A", OBJECT, "s"),
    ("B", A, ""),
    ("C", ClassId(9), ""),
    ("D", A, ""),
    ("E", OBJECT, ""),
    ("F", ClassId(12), ""),
];

fn classes() -> &'static [(&'static str, ClassId, &'static str)] {
    CLASSES
}

/// An instance variable, if one is named.
fn slots(alloc: Global, slot: &str) -> Result<Vec<Seq<u8>>, AllocError> {
    let mut slots = Vec::new(alloc);
    if !slot.is_empty() {
        slots.push(Seq::from_vec(Vec::from_slice(alloc, slot.as_bytes())?))?;
    }
    Ok(slots)
}

/// Defines a class with an instance variable, if one is named.
pub(crate) fn define(
    alloc: Global,
    image: &mut Image,
    name: &str,
    parent: ClassId,
    slot: &str,
) -> Result<u32, Refusal> {
    let slots = slots(alloc, slot)?;
    image.define(alloc, name.as_bytes(), parent, Seq::from_vec(slots))
}

/// Puts an image on the heap: where one stands on the stack, the proof of each function that lets it go pays for all its parts. So
/// it is with claims and bodies.
fn boxed(alloc: Global, image: Image) -> Result<Box<Image>, AllocError> {
    Ok(Box::new(alloc, image)?)
}

fn new_image(alloc: Global) -> Result<Box<Image>, Refusal> {
    Ok(boxed(alloc, Image::new(alloc, Settings::DEFAULT)?)?)
}

fn intern(alloc: Global, image: &mut Image, name: &str) -> Result<Selector, Refusal> {
    image.intern(alloc, name.as_bytes())
}

fn create(alloc: Global, image: &mut Image) -> Result<ActorId, Refusal> {
    image.create(alloc, A)
}

/// An image with the classes and the first actor.
pub(crate) fn new_image_of_classes(alloc: Global) -> Result<Box<Image>, Refusal> {
    let mut image = new_image(alloc)?;
    intern(alloc, &mut image, "go")?;
    for (name, parent, slot) in classes() {
        define(alloc, &mut image, name, *parent, slot)?;
    }
    create(alloc, &mut image)?;
    Ok(image)
}

/// A class by its name.
fn class_named(image: &Image, name: &str) -> Result<ClassId, Refusal> {
    image
        .version()
        .class_named(name.as_bytes())
        .ok_or(Refusal::UnknownClass)
}

fn install(alloc: Global, image: &mut Image, name: &str, source: &str) -> Result<u32, Refusal> {
    let class = class_named(image, name)?;
    image.install(alloc, class, source.as_bytes())
}

fn remove(alloc: Global, image: &mut Image, name: &str, selector: &str) -> Result<u32, Refusal> {
    let class = class_named(image, name)?;
    let selector = intern(alloc, image, selector)?;
    image.remove(alloc, class, selector)
}

/// Installs a method, of which the line has the name of the class and the source; or, behind `- `, removes one, of which it has the name
/// of the class and the selector.
pub(crate) fn edit(alloc: Global, image: &mut Image, line: &str) -> Result<u32, Refusal> {
    if let Some(method) = line.strip_prefix("- ") {
        let (name, selector) = method.split_once(' ').ok_or(Refusal::BadCommand)?;
        return remove(alloc, image, name, selector);
    }
    let (name, source) = line.split_once(' ').ok_or(Refusal::BadCommand)?;
    install(alloc, image, name, source)
}

/// Sends `go` to the first actor: a message of client 1.
pub(crate) fn post_go(alloc: Global, image: &mut Image, seq: u64) -> Result<u64, Refusal> {
    let none = Seq::from_vec(Vec::new(alloc));
    image.post(alloc, 1, seq, FIRST, GO, none)
}

/// An image with methods, each on a line, whose first actor was sent `go`.
pub(crate) fn image_sent_go(alloc: Global, methods: &str) -> Result<Box<Image>, Refusal> {
    let mut image = new_image_of_classes(alloc)?;
    for line in methods.lines() {
        edit(alloc, &mut image, line)?;
    }
    post_go(alloc, &mut image, 1)?;
    Ok(image)
}

fn boxed_claim(alloc: Global, claim: Claim) -> Result<Box<Claim>, AllocError> {
    Ok(Box::new(alloc, claim)?)
}

pub(crate) fn checkout(
    alloc: Global,
    image: &mut Image,
    actor: ActorId,
) -> Result<Box<Claim>, Refusal> {
    Ok(boxed_claim(alloc, image.checkout(alloc, actor)?)?)
}

pub(crate) fn release(image: &mut Image, claim: Box<Claim>) {
    image.release(Box::into_inner(claim));
}

/// Commits a claim, or gives it back.
pub(crate) fn commit(alloc: Global, image: &mut Image, claim: Box<Claim>) -> Result<u32, Refusal> {
    match image.commit(alloc, Box::into_inner(claim)) {
        Ok(steps) => Ok(steps),
        Err((refusal, Some(claim))) => {
            image.release(claim);
            Err(refusal)
        }
        Err((refusal, None)) => Err(refusal),
    }
}

pub(crate) fn next_ready(image: &Image) -> Option<ActorId> {
    image.next_ready()
}

/// How a turn of the first actor ended.
pub(crate) fn outcome(image: &Image, turn: u64) -> Result<Outcome, Refusal> {
    image.outcome(FIRST, turn)
}
