//! The keys of a JSON object.
ghost use Rattle.std.specs.Prelude.{◌≡◌, Ok, Err, map, if◌then◌else◌};
ghost use Rattle.serde_json.specs.View.{view};
ghost use Rattle.st_classes.specs.declared.refusals.Refusal.TheVariants.{BadCommand};
ghost use Rattle.st_wire.specs.Keys.{has_just as has_just_keys, has_all as has_all_keys};
ghost use Rattle.st_wire.specs.Fields as spec;

use serde_json::Value;
use st_classes::refusals::Refusal;

/// The number of keys of an object. It is 0 for any other value.
pub fn size(object: &Value) -> usize
    ensures { result ≡ spec.size (view object.now) }
{
    match object.as_object() {
        Some(members) => members.len(),
        None => 0,
    }
}

/// Whether a value has all of these keys.
fn has_all(object: &Value, keys: &[&str]) -> bool
    ensures { result ≡ has_all_keys (map (λ key. key.now) keys.now) (view object.now) }
{
    for key in keys {
        if object.get(*key).is_none() {
            return false;
        }
    }
    true
}

/// Whether a value is an object with exactly these keys.
pub fn has_just(object: &Value, keys: &[&str]) -> bool
    ensures { result ≡ has_just_keys (map (λ key. key.now) keys.now) (view object.now) }
{
    size(object) == keys.len() && has_all(object, keys)
}

/// Refuses a value that is not an object with exactly these keys.
pub(crate) fn just_keys(object: &Value, keys: &[&str]) -> Result<(), Refusal>
    ensures { result ≡ (if has_just_keys (map (λ key. key.now) keys.now) (view object.now) then Ok tt else Err BadCommand) }
{
    if has_just(object, keys) {
        Ok(())
    } else {
        Err(Refusal::BadCommand)
    }
}
