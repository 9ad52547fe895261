//! The JSON values of the parts of an image are read as these parts.
//!
//! Image files and answers have parts in the same form: see the definitions `actor_json` and `edit_json`.
ghost use Rattle.st_file.specs.ActorJson.{actor_json};
ghost use Rattle.st_file.specs.Forms.{ActorsAreRead, EditsAreRead, ReadsAs};
ghost use Rattle.st_file.specs.Meanings.{actor_meant};
ghost use Rattle.st_file.specs.Named.{ActorIsNamed};
ghost use Rattle.st_file.specs.Shapes.{actor_in};

use crate::ranges::Bounded;
use st_classes::names::Names;
use st_classes::version::Version;
use st_image::actor_part::ActorPart;

/// Two laws: what an actor is as a JSON value is read as this actor, if its numbers are within the bounds of their types; and what an
/// edit is as a JSON value is read as the edit's text.
#[tactic(auto, using(crate::proofs::BodyForms::actors_are_read, crate::proofs::EditForms::edits_are_read))]
pub fn forms_are_read()
    ensures actors { ActorsAreRead }
    ensures edits { EditsAreRead }
{}

/// A law: what an actor is as a JSON value, by the names and the classes of an image, is read as this actor.
pub fn actor_reads(names: &Names, version: &Version, part: &ActorPart)
    requires { ActorIsNamed names.now version.now part.now }
    ensures { ReadsAs actor_in (actor_meant names.now version.now) part.now (actor_json names.now version.now part.now) }
{
    names.known();
    version.known();
    part.in_range();
    forms_are_read();
}
