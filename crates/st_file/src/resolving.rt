//! Finds what the texts of a file mean, by its names and its class table.
ghost use Rattle.std.specs.Prelude.{◌^◌};
ghost use Rattle.st_classes.specs.Classes.{class_named};
ghost use Rattle.st_classes.specs.declared.refusals.ImagePlace.TheVariants.{Actors};
ghost use Rattle.st_file.specs.Answers.{Finds};
ghost use Rattle.st_file.specs.Meanings as spec;

mod actors;
mod bodies;
mod values;

use crate::texts::ActorText;
use st_classes::names::Names;
use st_classes::refusals::{ImagePlace, Refusal};
use st_classes::seq::Seq;
use st_classes::values::{ClassId, Selector};
use st_classes::version::Version;
use st_image::actor_part::ActorPart;
use std::alloc::Global;

/// The refusal of actors that mean nothing.
const ACTORS: Refusal = Refusal::BadImage {
    place: ImagePlace::Actors,
};

/// A text that can mean a part of an image.
pub trait Resolve<P: Drop> {
    ghost use Rattle.std.specs.Prelude.{ℕ, List, Option};
    ghost use Rattle.st_classes.specs.declared.edits.Edit.{Edit};

    /// What it means, by names and a class table.
    ghost meaning: { List (List ℕ) → List Edit → Self → Option P };

    /// Makes the part that it means.
    fn resolve(&self, alloc: Global, names: &Names, version: &Version) -> Result<P, Refusal>
        ensures { Finds Actors (meaning names.now version.now self.now) result };
}

/// The parts that some texts mean.
fn resolve_all<P: Drop, T: Resolve<P>>(
    alloc: Global,
    names: &Names,
    version: &Version,
    texts: &[T],
) -> Result<Seq<P>, Refusal>
    ensures { Finds Actors (spec.all_of (T.meaning names.now version.now) texts.now) result }
{
    let mut found = Vec::new(alloc);
    for text in texts {
        let one = match text.resolve(alloc, names, version) {
            Ok(one) => one,
            Err(refusal) => return Err(refusal),
        };
        let Ok(()) = found.push(one) else {
            return Err(Refusal::NoMemory);
        };
    }
    Ok(Seq::from_vec(found))
}

/// What is meant, or the refusal of actors that mean nothing.
fn meant<P: Drop>(part: Option<P>) -> Result<P, Refusal>
    ensures { Finds Actors part result }
{
    match part {
        Some(part) => Ok(part),
        None => Err(ACTORS),
    }
}

/// The class with this name.
pub fn class_of(version: &Version, text: &[u8]) -> Result<ClassId, Refusal>
    ensures { Finds Actors (class_named version.now text.now) result }
{
    meant(version.class_named(text))
}

/// The selector with this text.
pub fn selector_of(names: &Names, text: &[u8]) -> Result<Selector, Refusal>
    ensures { Finds Actors (spec.selector_of names.now text.now) result }
{
    meant(names.find(text))
}

/// The number, if it fits in 32 bits.
fn word(number: u64) -> Result<u32, Refusal>
    ensures { Finds Actors (spec.below (2 ^ 32) number) result }
{
    meant(u32::try_from(number).ok())
}

/// The actors of a file.
pub fn actors_of(
    alloc: Global,
    names: &Names,
    version: &Version,
    actors: &Seq<ActorText>,
) -> Result<Seq<ActorPart>, Refusal>
    ensures { Finds Actors (spec.actors_meant names.now version.now actors.now) result }
{
    resolve_all(alloc, names, version, actors.as_slice())
}
