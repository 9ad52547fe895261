//! Writes values and messages.
ghost use Rattle.std.specs.Prelude.{codes};
ghost use Rattle.serde_json.specs.Data.{string};
ghost use Rattle.serde_json.specs.Written.{compact_text};
ghost use Rattle.st_image.specs.Loading as spec;
ghost use Rattle.st_wire.specs.Replies.{only as only_key, whole as whole_number};
ghost use Rattle.st_file.specs.MessageJson.{message_json, sender_json};
ghost use Rattle.st_file.specs.TextWriters.{Puts};
ghost use Rattle.st_file.specs.ValueJson.{value_json, values_json};

use crate::saving::lists::{Writes, each};
use crate::saving::text_writer::TextWriter;
use st_classes::names::Names;
use st_classes::values::{ClassId, Selector, Value};
use st_classes::version::Version;
use st_mailbox::messages::{Message, Sender};
use st_wire::streams::Output;

/// The names and the class table by which parts are written.
#[derive(Clone, Copy)]
pub struct Table<'a> {
    pub names: &'a Names,
    pub version: &'a Version,
}

/// Writes the name of a class. It is empty if no class has this number.
#[tactic(auto, using(crate::proofs::TableTexts::class_is_text, crate::proofs::TableTexts::empty_is_text))]
pub fn class_name<O: Output>(
    writer: &mut TextWriter,
    output: &mut O,
    version: &Version,
    class: ClassId,
)
    ensures { Puts O.contents O.failures O.flushes output.old output.new writer.old writer.new (compact_text (string (spec.class_text version.now class))) }
{
    version.known();
    match version.class_name(class) {
        Some(name) => writer.text(output, name),
        None => writer.text(output, b""),
    }
}

/// Writes the text of a selector. It is empty if no name has this number.
#[tactic(auto, using(crate::proofs::AsciiNames::selector_is_text, crate::proofs::TableTexts::empty_is_text))]
pub fn selector_name<O: Output>(
    writer: &mut TextWriter,
    output: &mut O,
    names: &Names,
    selector: Selector,
)
    ensures { Puts O.contents O.failures O.flushes output.old output.new writer.old writer.new (compact_text (string (spec.selector_text names.now selector))) }
{
    names.known();
    if u32::from(selector.0) < names.len() {
        writer.text(output, names.text(selector));
    } else {
        writer.text(output, b"");
    }
}

/// Writes an object with one key, whose value is a number.
pub fn number_at<O: Output>(writer: &mut TextWriter, output: &mut O, key: &str, number: u64)
    ensures { Puts O.contents O.failures O.flushes output.old output.new writer.old writer.new (compact_text (only_key key.now (whole_number number))) }
{
    writer.put(output, "{");
    writer.key(output, false, key);
    writer.whole(output, number);
    writer.put(output, "}");
}

/// Writes a symbol.
fn symbol<O: Output>(writer: &mut TextWriter, output: &mut O, names: &Names, selector: Selector)
    ensures { Puts O.contents O.failures O.flushes output.old output.new writer.old writer.new (compact_text (only_key (codes "sym") (string (spec.selector_text names.now selector)))) }
{
    writer.put(output, "{");
    writer.key(output, false, "sym");
    selector_name(writer, output, names, selector);
    writer.put(output, "}");
}

/// Writes a class.
fn class<O: Output>(writer: &mut TextWriter, output: &mut O, version: &Version, class: ClassId)
    ensures { Puts O.contents O.failures O.flushes output.old output.new writer.old writer.new (compact_text (only_key (codes "class") (string (spec.class_text version.now class)))) }
{
    writer.put(output, "{");
    writer.key(output, false, "class");
    class_name(writer, output, version, class);
    writer.put(output, "}");
}

/// Writes a value.
pub fn value<O: Output>(writer: &mut TextWriter, output: &mut O, table: Table<'_>, value: Value)
    ensures { Puts O.contents O.failures O.flushes output.old output.new writer.old writer.new (compact_text (value_json table.entry.names.now table.entry.version.now value)) }
{
    match value {
        Value::Int(number) => writer.integer(output, number),
        Value::Bool(truth) => writer.truth(output, truth),
        Value::Nil => writer.put(output, "null"),
        Value::Sym(selector) => symbol(writer, output, table.names, selector),
        Value::Class(number) => class(writer, output, table.version, number),
        Value::Actor(actor) => number_at(writer, output, "ref", actor.0.into()),
        Value::Local(place) => number_at(writer, output, "local", place.into()),
    }
}

impl<'a> Writes<Value> for Table<'a> {
    ghost can_be_written = { λ t v. Unit {0} };

    ghost json = { λ t v. value_json t.names.now t.version.now v };

    fn write<O: Output>(&self, writer: &mut TextWriter, output: &mut O, item: &Value) {
        value(writer, output, *self, *item);
    }
}

/// Writes values, in their order.
pub fn values<O: Output>(writer: &mut TextWriter, output: &mut O, table: Table<'_>, list: &[Value])
    ensures { Puts O.contents O.failures O.flushes output.old output.new writer.old writer.new (compact_text (values_json table.entry.names.now table.entry.version.now list.now)) }
{
    each(writer, output, &table, list);
}

/// Writes a sender.
pub fn sender<O: Output>(writer: &mut TextWriter, output: &mut O, sender: Sender)
    ensures { Puts O.contents O.failures O.flushes output.old output.new writer.old writer.new (compact_text (sender_json sender)) }
{
    match sender {
        Sender::Client(client) => writer.whole(output, client.into()),
        Sender::Actor(actor) => number_at(writer, output, "ref", actor.0.into()),
    }
}

impl<'a> Writes<Message> for Table<'a> {
    ghost can_be_written = { λ t m. Unit {0} };

    ghost json = { λ t m. message_json t.names.now t.version.now m };

    fn write<O: Output>(&self, writer: &mut TextWriter, output: &mut O, item: &Message) {
        writer.put(output, "{");
        writer.key(output, false, "args");
        values(writer, output, *self, item.args.as_slice());
        writer.key(output, true, "selector");
        selector_name(writer, output, self.names, item.selector);
        writer.key(output, true, "sender");
        sender(writer, output, item.sender);
        writer.key(output, true, "seq");
        writer.whole(output, item.seq);
        writer.put(output, "}");
    }
}
