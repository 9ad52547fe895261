//! Values that name what exists.
ghost use Rattle.std.specs.Prelude.{◌≡◌, All, Decides};
ghost use Rattle.st_classes.specs.Classes.{class_count};
ghost use Rattle.st_classes.specs.MethodSuits.{is_there as there};
ghost use Rattle.st_turn.specs.BodyFits.{IsThere};
ghost use Rattle.st_image.specs.WorldInvariant.{given};

use st_classes::names::Names;
use st_classes::values::Value;
use st_classes::version::Version;

/// Whether what a value names exists, with this many objects.
pub(super) fn is_there(
    names: &Names,
    version: &Version,
    actors: u32,
    objects: usize,
    value: Value,
) -> bool
    ensures { result ≡ there names.now (class_count version.now) actors objects value }
{
    match value {
        Value::Int(_) | Value::Bool(_) | Value::Nil => true,
        Value::Sym(name) => u32::from(name.0) < names.len(),
        Value::Class(class) => u32::from(class.0) < version.classes(),
        Value::Actor(actor) => actor.0 < actors,
        Value::Local(place) => (place as usize) < objects,
    }
}

/// Whether what each of the values names exists.
pub(super) fn are_there(
    names: &Names,
    version: &Version,
    actors: u32,
    objects: usize,
    values: &[Value],
) -> bool
    ensures { Decides result (All (IsThere (given names.now actors) version.now objects) values.now) }
{
    'values: for place in 0..values.len() {
        if !is_there(names, version, actors, objects, values[place]) {
            return false;
        }
    }
    true
}
