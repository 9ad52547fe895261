//! Messages, as image files have them.
ghost use Rattle.std.specs.Prelude.{◌≡◌, IfOk};
ghost use Rattle.serde_json.specs.View.{view};
ghost use Rattle.st_file.specs.MessageJson.{message_json, sender_json};

use crate::listing::{ToJson, only};
use crate::texts::selector_text;
use crate::values::{Table, values};
use st_mailbox::messages::{Message, Sender};
use st_wire::told::{Members, Told};
use std::alloc::{AllocError, Global};

/// A client by its number, or an actor.
fn sender(alloc: Global, sender: Sender) -> Result<Told, AllocError>
    ensures { IfOk result (λ told. view told ≡ sender_json sender) }
{
    match sender {
        Sender::Client(client) => Ok(Told::whole(client.into())),
        Sender::Actor(actor) => only(alloc, "ref", Told::whole(actor.0.into())),
    }
}

impl<'a> ToJson<Message> for Table<'a> {
    ghost json = { λ t m. message_json t.names.now t.version.now m };

    fn to_json(&self, alloc: Global, item: &Message) -> Result<Told, AllocError> {
        let mut members = Members::new(alloc);
        members.put(alloc, "args", values(alloc, *self, item.args.as_slice())?)?;
        members.put(
            alloc,
            "selector",
            selector_text(alloc, self.names, item.selector)?,
        )?;
        members.put(alloc, "sender", sender(alloc, item.sender)?)?;
        members.put(alloc, "seq", Told::whole(item.seq))?;
        Ok(members.told())
    }
}
