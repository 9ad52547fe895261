//! The numbers of an image's parts are within the bounds of their types.
//!
//! That a number is within the bounds of its type is known once it is read. So these functions read each number of a part.
ghost use Rattle.std.specs.Prelude.{◌<◌, ◌^◌, All};
ghost use Rattle.st_file.specs.Ranges.{ActorIsInRange, BodyIsInRange, ClientIsInRange, FrameIsInRange, FramesAreInRange, MessageIsInRange, ObjectIsInRange, PhaseIsInRange, SenderIsInRange, ValueIsInRange};

use st_classes::values::Value;
use st_image::actor_part::ActorPart;
use st_mailbox::messages::{Message, Sender};
use st_turn::body::{Body, Object, Outcome, Phase};
use st_turn::frame::FrameRef;
use st_turn::stack::Stack;

/// A part of an image.
pub(crate) trait Bounded {
    /// Its numbers are within their bounds.
    ghost is_in_range: { Self → Type 0 };

    /// A law: they are.
    fn in_range(&self)
        ensures { is_in_range self.now };
}

/// All of some parts.
pub(crate) fn all_in_range<P: Bounded>(parts: &[P])
    ensures { All P.is_in_range parts.now }
{
    for part in parts {
        part.in_range();
    }
}

/// The number of an actor.
fn number_in_range(number: u32)
    ensures { number < 2 ^ 32 }
{}

impl Bounded for Value {
    ghost is_in_range = { ValueIsInRange };

    fn in_range(&self) {
        match *self {
            Value::Int(number) => {
                let _number = number;
            }
            Value::Actor(actor) => number_in_range(actor.0),
            Value::Local(place) => {
                let _place = place;
            }
            Value::Bool(_) | Value::Nil | Value::Sym(_) | Value::Class(_) => {}
        }
    }
}

impl Bounded for Sender {
    ghost is_in_range = { SenderIsInRange };

    fn in_range(&self) {
        match *self {
            Sender::Client(client) => {
                let _number = client;
            }
            Sender::Actor(actor) => number_in_range(actor.0),
        }
    }
}

impl Bounded for Message {
    ghost is_in_range = { MessageIsInRange };

    fn in_range(&self) {
        all_in_range(self.args.as_slice());
        self.sender.in_range();
        let _seq = self.seq;
    }
}

impl Bounded for Object {
    ghost is_in_range = { ObjectIsInRange };

    fn in_range(&self) {
        all_in_range(self.slots.as_slice());
    }
}

/// A frame.
fn frame_in_range(frame: &FrameRef<'_>)
    ensures { FrameIsInRange frame.now }
{
    let _method = frame.method.0;
    let _pc = frame.pc;
    frame.receiver.in_range();
    all_in_range(frame.temps);
    all_in_range(frame.operands);
}

/// The waiting frames of a turn.
fn waiting_in_range(stack: &Stack)
    ensures { All FrameIsInRange stack.now.callers }
{
    for place in 0..stack.waiting() {
        match stack.waiting_frame(place) {
            Some(frame) => frame_in_range(&frame),
            None => unreachable!(),
        }
    }
}

/// The frames of a turn.
fn frames_in_range(stack: &Stack)
    ensures { FramesAreInRange stack.now }
{
    waiting_in_range(stack);
    frame_in_range(&stack.running_frame());
}

impl Bounded for Phase {
    ghost is_in_range = { PhaseIsInRange };

    fn in_range(&self) {
        match self {
            Phase::Fresh => {}
            Phase::Start { selector: _, args } => all_in_range(args.as_slice()),
            Phase::Frames(stack) => frames_in_range(stack),
            Phase::Done(Outcome::Answer(value)) => value.in_range(),
            Phase::Done(Outcome::Fault(_)) => {}
        }
    }
}

impl Bounded for Body {
    ghost is_in_range = { BodyIsInRange };

    fn in_range(&self) {
        all_in_range(self.objects.as_slice());
        self.phase.in_range();
    }
}

impl Bounded for ActorPart {
    ghost is_in_range = { ActorIsInRange };

    fn in_range(&self) {
        let _capacity = self.capacity;
        let _last = self.last;
        self.body.in_range();
        all_in_range(self.pending.as_slice());
    }
}

impl Bounded for (u16, u64) {
    ghost is_in_range = { ClientIsInRange };

    fn in_range(&self) {
        let (_client, _last) = *self;
    }
}
