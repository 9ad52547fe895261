//! The lines that tell entries. Each is a JSON object of one key, with the classes and the selectors of the entry as texts:
//!
//! - `{"name":"tick"}`: a text was interned;
//! - `{"edit":..}`: an edit, as image files have it, and a method by its source;
//! - `{"actor":"Counter"}`: an actor of this class was made;
//! - `{"post":{"actor":0,"args":[..],"selector":"tick","sender":1,"seq":1}}`: a client's message was accepted;
//! - `{"close":0}`, `{"begun":0}`: the actor's mailbox was closed, its next message began;
//! - `{"ran":[0,256]}`: the actor took so many steps;
//! - `{"checkpoint":{}}`: the world became the base.
ghost use Rattle.std.specs.Prelude.{◌≡◌, ◌↔◌, All, codes, IfOk, IsTrue, OnOk};
ghost use Rattle.std.specs.Io.KnownBytes.{Appends};
ghost use Rattle.std.specs.Str.{IsUtf8, is_utf8};
ghost use Rattle.serde_json.specs.Data.{no_members, object, string};
ghost use Rattle.serde_json.specs.Written.{compact_text};
ghost use Rattle.st_image.specs.Loading.{class_text};
ghost use Rattle.st_wire.specs.Replies.{only};
ghost use Rattle.st_file.specs.EditJson as edits;
ghost use Rattle.st_file.specs.Tellable.{IsText};
ghost use Rattle.st_file.specs.TextWriters.{Puts};
ghost use Rattle.st_journal.specs.EntryForms.{CanBeTold, EntryIsText};
ghost use Rattle.st_journal.specs.EntryJson.{entry_json, posted_json, ran_json};
ghost use Rattle.st_journal.specs.EntryLines.{SaysEntry, entries_text, entry_line, entry_text};
ghost use Rattle.st_journal.specs.Telling.{WasWritten};
ghost use Rattle.st_log.specs.Lines.{IsLine};

use crate::entries::Entry;
use st_classes::names::Names;
use st_classes::seq::Seq;
use st_classes::values::{ActorId, ClassId, Selector};
use st_classes::version::Version;
use st_file::saving::tables;
use st_file::saving::text_writer::TextWriter;
use st_file::saving::values::{Table, class_name, number_at, selector_name, sender, values};
use st_mailbox::messages::Message;
use st_wire::streams::{MemoryOutput, Output, WriteFailed};
use std::alloc::{AllocError, Global};
use std::str;

/// Whether a text is UTF-8.
fn is_text(text: &[u8]) -> bool
    ensures { result ≡ is_utf8 text.now }
{
    match str::from_utf8(text) {
        Ok(_) => true,
        Err(_) => false,
    }
}

/// Whether all of these texts are UTF-8.
fn are_texts(texts: &[Seq<u8>]) -> bool
    ensures { IsTrue result ↔ All IsText texts.now }
{
    for text in texts {
        if !is_text(text.as_slice()) {
            return false;
        }
    }
    true
}

/// Whether the texts of an entry are UTF-8. Those of entries that tell what happened to an image are.
pub fn can_be_line(entry: &Entry) -> bool
    ensures { IsTrue result ↔ EntryIsText entry.now }
{
    match entry {
        Entry::Name(text) => is_text(text.as_slice()),
        Entry::Define { name, slots, .. } => {
            is_text(name.as_slice()) && are_texts(slots.as_slice())
        }
        Entry::Install { source, .. } => is_text(source.as_slice()),
        _ => true,
    }
}

/// The line that tells an entry, by names and a class table: one JSON text, and a newline. The texts of the entry have to be UTF-8. If its
/// classes and selectors are there and its numbers are within bounds, the text says this very entry again. Fails only if memory runs out.
pub fn line_of(
    alloc: Global,
    names: &Names,
    version: &Version,
    entry: &Entry,
) -> Result<Vec<u8>, AllocError>
    requires { EntryIsText entry.now }
    ensures line { IfOk result (λ line. line.items ≡ entry_line names.now version.now entry.now) }
    ensures one { IfOk result (λ line. IsLine line.items) }
    ensures says { IfOk result (λ line. CanBeTold names.now version.now entry.now → SaysEntry names.now version.now (entry_text names.now version.now entry.now) entry.now) }
{
    names.known();
    version.known();
    bytes_of(alloc, names, version, entry)
}

/// The bytes of the line of an entry.
fn bytes_of(
    alloc: Global,
    names: &Names,
    version: &Version,
    entry: &Entry,
) -> Result<Vec<u8>, AllocError>
    requires { EntryIsText entry.now }
    ensures line { IfOk result (λ line. line.items ≡ entry_line names.now version.now entry.now) }
    ensures utf8 { IsUtf8 (entry_text names.now version.now entry.now) }
{
    let mut output = MemoryOutput::new(alloc);
    match write_line(alloc, names, version, entry, &mut output) {
        Ok(_) => output.as_slice().to_vec(alloc),
        Err(_) => Err(AllocError),
    }
}

/// Writes the line of an entry. The answer is how many bytes it has.
fn write_line<O: Output>(
    alloc: Global,
    names: &Names,
    version: &Version,
    entry: &Entry,
    output: &mut O,
) -> Result<u64, WriteFailed>
    requires { EntryIsText entry.now }
    ensures line { OnOk result (Appends (O.contents output.old) (O.contents output.new) (entry_line names.now version.now entry.now)) }
    ensures utf8 { IsUtf8 (entry_text names.now version.now entry.now) }
{
    let mut writer = TextWriter::new(alloc);
    write(&mut writer, output, Table { names, version }, entry);
    writer.put(output, "\n");
    writer.finish(output)
}

/// Writes the lines of entries, one after the other. Where an entry has a text that is not UTF-8, it fails; the entries that tell what
/// happened to an image have none.
pub fn write_lines<O: Output>(
    alloc: Global,
    names: &Names,
    version: &Version,
    entries: &[Entry],
    output: &mut O,
) -> Result<u64, WriteFailed>
    ensures text { OnOk result (Appends (O.contents output.old) (O.contents output.new) (entries_text names.now version.now entries.now)) }
    ensures written { OnOk result (All (WasWritten names.now version.now) entries.now) }
{
    let mut writer = TextWriter::new(alloc);
    for entry in entries {
        if !can_be_line(entry) {
            return Err(WriteFailed);
        }
        write(&mut writer, output, Table { names, version }, entry);
        writer.put(output, "\n");
    }
    writer.finish(output)
}

/// Writes an entry.
fn write<O: Output>(writer: &mut TextWriter, output: &mut O, table: Table<'_>, entry: &Entry)
    requires { EntryIsText entry.now }
    ensures { Puts O.contents O.failures O.flushes output.old output.new writer.old writer.new (compact_text (entry_json table.entry.names.now table.entry.version.now entry.now)) }
{
    match entry {
        Entry::Name(text) => name(writer, output, text),
        Entry::Define {
            name,
            parent,
            slots,
        } => define(writer, output, table.version, name, *parent, slots),
        Entry::Install { class, source } => {
            install(writer, output, table.version, *class, source);
        }
        Entry::Remove { class, selector } => remove(writer, output, table, *class, *selector),
        Entry::Reparent { class, parent } => {
            reparent(writer, output, table.version, *class, *parent);
        }
        Entry::Created(class) => created(writer, output, table.version, *class),
        Entry::Posted { actor, message } => posted(writer, output, table, *actor, message),
        Entry::Closed(actor) => number_at(writer, output, "close", actor.0.into()),
        Entry::Begun(actor) => number_at(writer, output, "begun", actor.0.into()),
        Entry::Ran { actor, steps } => ran(writer, output, *actor, *steps),
        Entry::Checkpoint => checkpoint(writer, output),
    }
}

/// Writes a name.
fn name<O: Output>(writer: &mut TextWriter, output: &mut O, text: &Seq<u8>)
    requires { IsText text.now }
    ensures { Puts O.contents O.failures O.flushes output.old output.new writer.old writer.new (compact_text (only (codes "name") (string text.now))) }
{
    writer.put(output, "{");
    writer.key(output, false, "name");
    writer.text(output, text.as_slice());
    writer.put(output, "}");
}

/// Writes a class that was defined.
fn define<O: Output>(
    writer: &mut TextWriter,
    output: &mut O,
    version: &Version,
    name: &Seq<u8>,
    parent: ClassId,
    slots: &Seq<Seq<u8>>,
)
    requires name { IsText name.now }
    requires slots { All IsText slots.now }
    ensures { Puts O.contents O.failures O.flushes output.old output.new writer.old writer.new (compact_text (only (codes "edit") (edits.define_json version.now name.now parent slots.now))) }
{
    writer.put(output, "{");
    writer.key(output, false, "edit");
    tables::define(
        writer,
        output,
        version,
        name.as_slice(),
        parent,
        slots.as_slice(),
    );
    writer.put(output, "}");
}

/// Writes a method that was installed.
fn install<O: Output>(
    writer: &mut TextWriter,
    output: &mut O,
    version: &Version,
    class: ClassId,
    source: &Seq<u8>,
)
    requires { IsText source.now }
    ensures { Puts O.contents O.failures O.flushes output.old output.new writer.old writer.new (compact_text (only (codes "edit") (edits.install_json version.now class source.now))) }
{
    writer.put(output, "{");
    writer.key(output, false, "edit");
    tables::install(writer, output, version, class, source.as_slice());
    writer.put(output, "}");
}

/// Writes a method that was removed.
fn remove<O: Output>(
    writer: &mut TextWriter,
    output: &mut O,
    table: Table<'_>,
    class: ClassId,
    selector: Selector,
)
    ensures { Puts O.contents O.failures O.flushes output.old output.new writer.old writer.new (compact_text (only (codes "edit") (edits.remove_json table.entry.names.now table.entry.version.now class selector))) }
{
    writer.put(output, "{");
    writer.key(output, false, "edit");
    tables::remove(writer, output, table.names, table.version, class, selector);
    writer.put(output, "}");
}

/// Writes a class that got another superclass.
fn reparent<O: Output>(
    writer: &mut TextWriter,
    output: &mut O,
    version: &Version,
    class: ClassId,
    parent: ClassId,
)
    ensures { Puts O.contents O.failures O.flushes output.old output.new writer.old writer.new (compact_text (only (codes "edit") (edits.reparent_json version.now class parent))) }
{
    writer.put(output, "{");
    writer.key(output, false, "edit");
    tables::reparent(writer, output, version, class, parent);
    writer.put(output, "}");
}

/// Writes an actor that was made.
fn created<O: Output>(writer: &mut TextWriter, output: &mut O, version: &Version, class: ClassId)
    ensures { Puts O.contents O.failures O.flushes output.old output.new writer.old writer.new (compact_text (only (codes "actor") (string (class_text version.now class)))) }
{
    writer.put(output, "{");
    writer.key(output, false, "actor");
    class_name(writer, output, version, class);
    writer.put(output, "}");
}

/// Writes a message that was posted.
fn posted<O: Output>(
    writer: &mut TextWriter,
    output: &mut O,
    table: Table<'_>,
    actor: ActorId,
    message: &Message,
)
    ensures { Puts O.contents O.failures O.flushes output.old output.new writer.old writer.new (compact_text (only (codes "post") (posted_json table.entry.names.now table.entry.version.now actor message.now))) }
{
    writer.put(output, "{");
    writer.key(output, false, "post");
    message_to(writer, output, table, actor, message);
    writer.put(output, "}");
}

/// Writes a message and the actor to which it was posted.
fn message_to<O: Output>(
    writer: &mut TextWriter,
    output: &mut O,
    table: Table<'_>,
    actor: ActorId,
    message: &Message,
)
    ensures { Puts O.contents O.failures O.flushes output.old output.new writer.old writer.new (compact_text (posted_json table.entry.names.now table.entry.version.now actor message.now)) }
{
    writer.put(output, "{");
    writer.key(output, false, "actor");
    writer.whole(output, actor.0.into());
    writer.key(output, true, "args");
    values(writer, output, table, message.args.as_slice());
    writer.key(output, true, "selector");
    selector_name(writer, output, table.names, message.selector);
    writer.key(output, true, "sender");
    sender(writer, output, message.sender);
    writer.key(output, true, "seq");
    writer.whole(output, message.seq);
    writer.put(output, "}");
}

/// Writes an actor and the steps of one commit.
fn ran<O: Output>(writer: &mut TextWriter, output: &mut O, actor: ActorId, steps: u32)
    ensures { Puts O.contents O.failures O.flushes output.old output.new writer.old writer.new (compact_text (only (codes "ran") (ran_json actor steps))) }
{
    writer.put(output, "{");
    writer.key(output, false, "ran");
    writer.put(output, "[");
    writer.whole(output, actor.0.into());
    writer.put(output, ",");
    writer.whole(output, steps.into());
    writer.put(output, "]");
    writer.put(output, "}");
}

/// Writes a checkpoint.
fn checkpoint<O: Output>(writer: &mut TextWriter, output: &mut O)
    ensures { Puts O.contents O.failures O.flushes output.old output.new writer.old writer.new (compact_text (only (codes "checkpoint") (object no_members))) }
{
    writer.put(output, "{");
    writer.key(output, false, "checkpoint");
    writer.put(output, "{}");
    writer.put(output, "}");
}
