//! Turns by the plain step alone.
ghost use Rattle.std.specs.Prelude.{◌≡◌, length, true, Some, IfOk, IfSome};
ghost use Rattle.std.specs.Bool.{OnTrue};
ghost use Rattle.st_classes.specs.Classes.{slots};
ghost use Rattle.st_classes.specs.MethodSuits.{arity_at};
ghost use Rattle.st_turn.specs.BodyFits.{FitsSome, has_instances};
ghost use Rattle.st_image.specs.Images.{world};

use crate::calls::{FIRST, define, install, new_image, number_of};
use st_classes::faults::Fault;
use st_classes::kernel::{KERNEL_CLASSES, OBJECT};
use st_classes::names::Names;
use st_classes::refusals::Refusal;
use st_classes::seq::Seq;
use st_classes::values::{ClassId, Selector, Value};
use st_classes::version::Version;
use st_image::settings::Settings;
use st_script::images::Image;
use st_turn::body::{Body, Outcome, Phase, Stop};
use st_turn::plain::step_plain;
use std::alloc::{AllocError, Global};
use std::test::Fail;

const A: ClassId = ClassId(8);

const B: ClassId = ClassId(9);

const C: ClassId = ClassId(10);

/// Whether a class has actors, and no instance variables.
fn is_plain(version: &Version, class: ClassId) -> bool
    ensures instances { OnTrue result (has_instances version.now class ≡ true) }
    ensures slots { OnTrue result (length (slots version.now class) ≡ 0) }
{
    if 1 <= class.0 && class.0 < KERNEL_CLASSES || !version.is_class(class) {
        return false;
    }
    version.slots(class).is_empty()
}

/// Whether a selector is there, and takes no arguments.
fn is_unary(names: &Names, selector: Selector) -> bool
    ensures { OnTrue result (arity_at names.now selector ≡ Some 0) }
{
    u32::from(selector.0) < names.len() && names.arity(selector) == 0
}

/// The body of an actor of a class without instance variables, to which a message without arguments was sent.
fn asked(
    alloc: Global,
    image: &Image,
    class: ClassId,
    selector: Selector,
) -> Result<Option<Body>, AllocError>
    ensures { IfOk result (λ asked. IfSome asked (λ body. FitsSome (world image.now).edits FIRST body)) }
{
    if !is_plain(image.version(), class) || !is_unary(image.names(), selector) {
        return Ok(None);
    }
    image.known();
    let mut body = Body::fresh(alloc, class, 0)?;
    body.begin(selector, Seq::from_vec(Vec::new(alloc)));
    Ok(Some(body))
}

/// Takes steps of the actor's own, 1,000 at most. The answer is how many there were, and what stopped them.
fn run_plainly(alloc: Global, body: &mut Body, version: &Version) -> Result<(u32, Stop), AllocError>
    requires { FitsSome version.now FIRST body.old }
{
    for steps in 0..1000 {
        match step_plain(alloc, body, FIRST, version)? {
            Stop::More => {}
            stop => return Ok((steps, stop)),
        }
    }
    Ok((1000, Stop::More))
}

/// A turn by plain steps: how many there were, what stopped them, and how it ended.
type PlainTurn = (u32, Stop, Option<Outcome>);

/// The turn of a new actor by plain steps.
fn plain_turn(
    alloc: Global,
    image: &Image,
    class: ClassId,
    selector: Selector,
) -> Result<Option<PlainTurn>, AllocError> {
    let Some(mut body) = asked(alloc, image, class, selector)? else {
        return Ok(None);
    };
    let (steps, stop) = run_plainly(alloc, &mut body, image.version())?;
    let outcome = match &body.phase {
        Phase::Done(outcome) => Some(*outcome),
        _ => None,
    };
    Ok(Some((steps, stop, outcome)))
}

/// The turn of a new actor to which a message of this name is sent.
fn named_turn(
    alloc: Global,
    image: &Image,
    class: ClassId,
    name: &str,
) -> Result<Option<PlainTurn>, AllocError> {
    match number_of(image, name.as_bytes()) {
        Some(selector) => plain_turn(alloc, image, class, selector),
        None => Ok(None),
    }
}

/// Classes A, B under A and C under B, with methods.
fn three_classes(alloc: Global) -> Result<Box<Image>, Refusal> {
    let mut image = new_image(alloc, Settings::DEFAULT)?;
    define(alloc, &mut image, b"A", OBJECT)?;
    define(alloc, &mut image, b"B", A)?;
    define(alloc, &mut image, b"C", B)?;
    for (class, source) in [
        (A, "who ^1"),
        (B, "who ^super who + 10"),
        (C, "who ^super who + 100"),
        (A, "c ^1 + 2; + 10; * 4"),
        (A, "d ^false ifTrue: [1]"),
        (A, "e ^3 ifTrue: [1]"),
        (A, "make ^A newActor"),
    ] {
        install(alloc, &mut image, class, source)?;
    }
    Ok(image)
}

/// Classes, selectors, and the turns of these by the plain step alone. A step of the image's is none of them.
const TURNS: &[(ClassId, &str, PlainTurn)] = &[
    (
        OBJECT,
        "isNil",
        (1, Stop::Ended, Some(Outcome::Answer(Value::Bool(false)))),
    ),
    (
        C,
        "who",
        (13, Stop::Ended, Some(Outcome::Answer(Value::Int(111)))),
    ),
    (
        A,
        "c",
        (13, Stop::Ended, Some(Outcome::Answer(Value::Int(4)))),
    ),
    (A, "d", (5, Stop::Ended, Some(Outcome::Answer(Value::Nil)))),
    (
        A,
        "e",
        (3, Stop::Ended, Some(Outcome::Fault(Fault::MustBeBoolean))),
    ),
    (A, "make", (2, Stop::Outer, None)),
];

/// The table stands behind a function without a contract, so that the proof of a test carries nothing of it.
fn turns() -> &'static [(ClassId, &'static str, PlainTurn)] {
    TURNS
}

#[test]
fn plain_steps(rt: HostRuntime) -> Result<(), Fail> {
    let image = three_classes(rt.alloc())?;
    for (class, selector, wanted) in turns() {
        let turn = named_turn(rt.alloc(), &image, *class, selector)?;
        assert!(rt; turn == Some(*wanted), "{selector}");
    }
    Ok(())
}
