//! Objects that fit their classes.
ghost use Rattle.std.specs.Prelude.{◌≡◌, ◌++◌, ℕ, List, length, All, Decides};
ghost use Rattle.st_classes.specs.Classes.{slots};
ghost use Rattle.st_turn.specs.BodyFits.{HasSlotsOf, IsObject, has_instances as instances};
ghost use Rattle.st_turn.specs.Objects.{class_in};
ghost use Rattle.st_image.specs.WorldInvariant.{given};

use crate::fitting::values::are_there;
use st_classes::kernel::{
    ACTOR_REF, CLASS, FALSE, SMALL_INTEGER, SYMBOL, TRUE, UNDEFINED_OBJECT, is_value_class,
};
use st_classes::names::Names;
use st_classes::seq::Seq;
use st_classes::values::{ClassId, Value};
use st_classes::version::Version;
use st_turn::body::Object;

/// Whether a class is Object or a user's.
fn has_instances(version: &Version, class: ClassId) -> bool
    ensures { result ≡ instances version.now class }
{
    version.is_class(class) && !is_value_class(class)
}

/// The instance variables of a class; none if it is no class.
fn slots_of(version: &Version, class: ClassId) -> &[Seq<u8>]
    ensures { result.now ≡ slots version.now class }
{
    if version.is_class(class) {
        version.slots(class)
    } else {
        &[]
    }
}

fn same_text(a: &[u8], b: &[u8]) -> bool
    ensures { Decides result (a.now ≡ b.now) }
{
    a == b
}

/// Whether the first texts are a prefix of all.
fn begins_with(all: &[Seq<u8>], first: &[Seq<u8>]) -> bool
    ensures { Decides result ((rest : List (List ℕ)) × (all.now ≡ first.now ++ rest)) }
{
    if first.len() > all.len() {
        return false;
    }
    'texts: for place in 0..first.len() {
        if !same_text(first[place].as_slice(), all[place].as_slice()) {
            return false;
        }
    }
    true
}

/// Whether the instance variables of the holder are a prefix of those of a class.
pub(super) fn has_slots_of(version: &Version, class: ClassId, holder: ClassId) -> bool
    ensures { Decides result (HasSlotsOf version.now class holder) }
{
    begins_with(slots_of(version, class), slots_of(version, holder))
}

/// Whether an object, one of this many, fits its class.
fn object_fits(
    names: &Names,
    version: &Version,
    actors: u32,
    objects: usize,
    object: &Object,
) -> bool
    ensures { Decides result (IsObject (given names.now actors) version.now objects object.now) }
{
    has_instances(version, object.class)
        && object.slots.len() == slots_of(version, object.class).len()
        && are_there(names, version, actors, objects, object.slots.as_slice())
}

/// Whether the objects of an actor fit their classes.
pub(super) fn objects_fit(names: &Names, version: &Version, actors: u32, objects: &[Object]) -> bool
    ensures { Decides result (All (IsObject (given names.now actors) version.now (length objects.now)) objects.now) }
{
    'objects: for place in 0..objects.len() {
        if !object_fits(names, version, actors, objects.len(), &objects[place]) {
            return false;
        }
    }
    true
}

/// The class of a value; Object if it names an object that does not exist.
pub(super) fn class_of(objects: &[Object], value: Value) -> ClassId
    ensures { result ≡ class_in objects.now value }
{
    match value {
        Value::Int(_) => SMALL_INTEGER,
        Value::Bool(true) => TRUE,
        Value::Bool(false) => FALSE,
        Value::Nil => UNDEFINED_OBJECT,
        Value::Sym(_) => SYMBOL,
        Value::Actor(_) => ACTOR_REF,
        Value::Class(_) => CLASS,
        Value::Local(place) => match objects.get(place as usize) {
            Some(object) => object.class,
            None => ClassId(0),
        },
    }
}
