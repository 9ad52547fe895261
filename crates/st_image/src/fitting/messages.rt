//! Messages that fit a world.
ghost use Rattle.std.specs.Prelude.{◌≡◌, true, All, Decides};
ghost use Rattle.std.specs.List.{list_all, list_any};
ghost use Rattle.st_classes.specs.Classes.{class_count};
ghost use Rattle.st_classes.specs.MethodSuits.{arity_at, is_number};
ghost use Rattle.st_mailbox.specs.declared.messages.Message.{Message as MessageOf};
ghost use Rattle.st_image.specs.PostRules.{argument_fits as fits_argument, message_fits as fits_message};
ghost use Rattle.st_image.specs.Replay.{is_local as local};

use crate::fitting::values::is_there;
use st_classes::names::Names;
use st_classes::values::{Selector, Value};
use st_classes::version::Version;
use st_mailbox::messages::Message;

/// Whether what an argument names exists, and is not an object.
fn argument_fits(names: &Names, version: &Version, actors: u32, value: Value) -> bool
    ensures { result ≡ fits_argument names.now (class_count version.now) actors value }
{
    is_there(names, version, actors, 0, value)
}

fn arguments_fit(names: &Names, version: &Version, actors: u32, args: &[Value]) -> bool
    ensures { result ≡ list_all (fits_argument names.now (class_count version.now) actors) args.now }
{
    args.iter()
        .all(|value| argument_fits(names, version, actors, *value))
}

/// Whether a selector exists and takes this many arguments.
pub(super) fn takes(names: &Names, selector: Selector, count: usize) -> bool
    ensures { result ≡ is_number (arity_at names.now selector) count }
{
    u32::from(selector.0) < names.len() && usize::from(names.arity(selector)) == count
}

fn message_fits(names: &Names, version: &Version, actors: u32, message: &Message) -> bool
    ensures { result ≡ fits_message names.now (class_count version.now) actors message.now }
{
    let args = message.args.as_slice();
    takes(names, message.selector, args.len()) && arguments_fit(names, version, actors, args)
}

/// Whether all of the messages fit.
pub(super) fn messages_fit(
    names: &Names,
    version: &Version,
    actors: u32,
    messages: &[Message],
) -> bool
    ensures { Decides result (All (λ (m : MessageOf). fits_message names.now (class_count version.now) actors m ≡ true) messages.now) }
{
    'messages: for place in 0..messages.len() {
        if !message_fits(names, version, actors, &messages[place]) {
            return false;
        }
    }
    true
}

fn is_local(value: Value) -> bool
    ensures { result ≡ local value }
{
    matches!(value, Value::Local(_))
}

/// Whether an argument is an object of the actor's own.
pub(super) fn has_local(args: &[Value]) -> bool
    ensures { result ≡ list_any local args.now }
{
    args.iter().any(|value| is_local(*value))
}
