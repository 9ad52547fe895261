//! What objects, frames and bodies mean.
ghost use Rattle.std.specs.Prelude.{◌^◌, option_map, option_and_then};
ghost use Rattle.st_classes.specs.declared.refusals.ImagePlace.TheVariants.{Actors};
ghost use Rattle.st_file.specs.Answers.{Finds};
ghost use Rattle.st_file.specs.Meanings as spec;

use crate::resolving::values::values_of;
use crate::resolving::{ACTORS, Resolve, class_of, meant, resolve_all, selector_of, word};
use crate::texts::{BodyText, FrameText, ObjectText, PhaseText, ValueText};
use st_classes::names::Names;
use st_classes::refusals::Refusal;
use st_classes::seq::Seq;
use st_classes::values::MethodId;
use st_classes::version::Version;
use st_turn::body::{Body, Object, Objects, Outcome, Phase};
use st_turn::frame::Frame;
use st_turn::stack::Stack;
use std::alloc::Global;

impl Resolve<Object> for ObjectText {
    ghost meaning = { spec.object_meant };

    fn resolve(&self, alloc: Global, names: &Names, version: &Version) -> Result<Object, Refusal> {
        Ok(Object {
            class: class_of(version, self.class.as_slice())?,
            slots: values_of(alloc, names, version, &self.slots)?,
        })
    }
}

/// A method by its place among the edits.
fn method_of(place: u64) -> Result<MethodId, Refusal>
    ensures { Finds Actors (option_map spec.method_id (spec.below (2 ^ 32) place)) result }
{
    Ok(MethodId(word(place)?))
}

/// The place of an instruction, if it fits in 16 bits.
fn pc_of(place: u64) -> Result<u16, Refusal>
    ensures { Finds Actors (spec.below (2 ^ 16) place) result }
{
    meant(u16::try_from(place).ok())
}

impl Resolve<Frame> for FrameText {
    ghost meaning = { spec.frame_meant };

    fn resolve(&self, alloc: Global, names: &Names, version: &Version) -> Result<Frame, Refusal> {
        Ok(Frame {
            method: method_of(self.method)?,
            pc: pc_of(self.pc)?,
            receiver: self.receiver.resolve(alloc, names, version)?,
            temps: values_of(alloc, names, version, &self.temps)?,
            operands: values_of(alloc, names, version, &self.operands)?,
        })
    }
}

/// A message that is not yet dispatched.
fn start_of(
    alloc: Global,
    names: &Names,
    version: &Version,
    args: &Seq<ValueText>,
    selector: &Seq<u8>,
) -> Result<Phase, Refusal>
    ensures { Finds Actors (spec.start_with (spec.all_of (spec.value_meant names.now version.now) args.now) (spec.selector_of names.now selector.now)) result }
{
    Ok(Phase::Start {
        args: values_of(alloc, names, version, args)?,
        selector: selector_of(names, selector.as_slice())?,
    })
}

/// Makes a stack of frames. The last one runs, so there has to be one.
fn stacked(alloc: Global, frames: Seq<Frame>) -> Result<Stack, Refusal>
    ensures { Finds Actors (spec.frames_of frames) result }
{
    let mut callers = frames.into_vec();
    let Some(running) = callers.pop() else {
        return Err(ACTORS);
    };
    let stack = Stack::from_frames(alloc, callers.as_slice(), &running)?;
    Ok(stack)
}

/// The frames of a turn.
fn frames_of(
    alloc: Global,
    names: &Names,
    version: &Version,
    frames: &Seq<FrameText>,
) -> Result<Stack, Refusal>
    ensures { Finds Actors (option_and_then spec.frames_of (spec.all_of (spec.frame_meant names.now version.now) frames.now)) result }
{
    let frames = resolve_all(alloc, names, version, frames.as_slice())?;
    stacked(alloc, frames)
}

impl Resolve<Phase> for PhaseText {
    ghost meaning = { spec.phase_meant };

    fn resolve(&self, alloc: Global, names: &Names, version: &Version) -> Result<Phase, Refusal> {
        match self {
            PhaseText::Fresh => Ok(Phase::Fresh),
            PhaseText::Start { args, selector } => {
                start_of(alloc, names, version, args, selector)
            }
            PhaseText::Frames(frames) => {
                Ok(Phase::Frames(frames_of(alloc, names, version, frames)?))
            }
            PhaseText::Answer(value) => Ok(Phase::Done(Outcome::Answer(value.resolve(
                alloc, names, version,
            )?))),
            PhaseText::Fault(fault) => Ok(Phase::Done(Outcome::Fault(*fault))),
        }
    }
}

/// The objects of an actor.
fn objects_of(
    alloc: Global,
    names: &Names,
    version: &Version,
    objects: &Seq<ObjectText>,
) -> Result<Objects, Refusal>
    ensures { Finds Actors (spec.all_of (spec.object_meant names.now version.now) objects.now) result }
{
    let objects = resolve_all(alloc, names, version, objects.as_slice())?;
    Ok(Objects::from_vec(objects.into_vec()))
}

impl Resolve<Body> for BodyText {
    ghost meaning = { spec.body_meant };

    fn resolve(&self, alloc: Global, names: &Names, version: &Version) -> Result<Body, Refusal> {
        Ok(Body {
            objects: objects_of(alloc, names, version, &self.objects)?,
            phase: self.phase.resolve(alloc, names, version)?,
        })
    }
}
