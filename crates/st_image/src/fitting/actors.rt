//! Actors that fit a world.
ghost use Rattle.std.specs.Prelude.{◌≡◌, All, Decides};
ghost use Rattle.st_classes.specs.declared.values.Value.TheVariants.{Local};
ghost use Rattle.st_turn.specs.Objects.{class_in};
ghost use Rattle.st_image.specs.declared.actor_part.ActorPart.{ActorPart as PartOf};
ghost use Rattle.st_image.specs.Parts.{actor_of};
ghost use Rattle.st_image.specs.Starts.{StartsWithoutLocals};
ghost use Rattle.st_image.specs.WorldInvariant.{IsWorldActor};

use crate::actor_part::ActorPart;
use crate::fitting::bodies::body_fits;
use crate::fitting::messages::{has_local, messages_fit};
use crate::fitting::objects::class_of;
use st_classes::names::Names;
use st_classes::values::{ClassId, Value};
use st_classes::version::Version;
use st_turn::body::{Object, Phase};

/// Whether a message that is yet to be dispatched has none of the actor's own objects.
fn starts_without_locals(phase: &Phase) -> bool
    ensures { Decides result (StartsWithoutLocals phase.now) }
{
    match phase {
        Phase::Start { args, .. } => !has_local(args.as_slice()),
        _ => true,
    }
}

/// Whether the first object is of a class.
fn is_itself(objects: &[Object], class: ClassId) -> bool
    ensures { Decides result (class_in objects.now (Local 0) ≡ class) }
{
    class_of(objects, Value::Local(0)) == class
}

/// Whether an actor is one of a world with these names, this class table and this many actors.
pub(crate) fn actor_fits(names: &Names, version: &Version, actors: u32, actor: &ActorPart) -> bool
    ensures { Decides result (IsWorldActor names.now version.now actors (actor_of actor.now)) }
{
    if !body_fits(names, version, actors, &actor.body) {
        return false;
    }
    if !is_itself(actor.body.objects.as_slice(), actor.class) {
        return false;
    }
    if !starts_without_locals(&actor.body.phase) {
        return false;
    }
    if actor.capacity < 1 || 1024 < actor.capacity {
        return false;
    }
    if (actor.capacity as usize) < actor.pending.len() {
        return false;
    }
    messages_fit(names, version, actors, actor.pending.as_slice())
}

/// Whether actors are those of a world with this many.
pub(crate) fn actors_fit(names: &Names, version: &Version, count: u32, actors: &[ActorPart]) -> bool
    ensures { Decides result (All (λ (a : PartOf). IsWorldActor names.now version.now count (actor_of a)) actors.now) }
{
    'actors: for place in 0..actors.len() {
        if !actor_fits(names, version, count, &actors[place]) {
            return false;
        }
    }
    true
}
