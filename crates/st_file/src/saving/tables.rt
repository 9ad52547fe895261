//! Writes a class table: its names and its edits.
ghost use Rattle.std.specs.Prelude.{◌≡◌, true, All, drop};
ghost use Rattle.std.specs.Str.{is_utf8};
ghost use Rattle.serde_json.specs.Data.{string};
ghost use Rattle.serde_json.specs.Written.{compact_text};
ghost use Rattle.st_image.specs.CompiledEdits.{AllCompiled};
ghost use Rattle.st_image.specs.Loading as spec;
ghost use Rattle.st_file.specs.EditJson.{define_json, edit_json, install_json, remove_json, reparent_json};
ghost use Rattle.st_file.specs.ListJson as lists;
ghost use Rattle.st_file.specs.Tellable.{EditIsText, IsText};
ghost use Rattle.st_file.specs.TextWriters.{Puts};

use crate::saving::lists::{Writes, each};
use crate::saving::text_writer::TextWriter;
use crate::saving::values::{class_name, selector_name};
use st_classes::edits::Edit;
use st_classes::names::Names;
use st_classes::seq::Seq;
use st_classes::values::{ClassId, Selector};
use st_classes::version::Version;
use st_wire::streams::Output;

/// How many names the kernel has.
const KERNEL_NAMES: u16 = 22;

/// Texts as they are.
struct Texts;

impl Writes<Seq<u8>> for Texts {
    ghost can_be_written = { λ w t. IsText t };

    ghost json = { λ w t. string t };

    fn write<O: Output>(&self, writer: &mut TextWriter, output: &mut O, item: &Seq<u8>) {
        writer.text(output, item.as_slice());
    }
}

/// Writes what was defined.
pub fn define<O: Output>(
    writer: &mut TextWriter,
    output: &mut O,
    version: &Version,
    name: &[u8],
    parent: ClassId,
    slots: &[Seq<u8>],
)
    requires name { is_utf8 name.now ≡ true }
    requires slots { All IsText slots.now }
    ensures { Puts O.contents O.failures O.flushes output.old output.new writer.old writer.new (compact_text (define_json version.now name.now parent slots.now)) }
{
    writer.put(output, "{");
    writer.key(output, false, "define");
    writer.put(output, "{");
    writer.key(output, false, "name");
    writer.text(output, name);
    writer.key(output, true, "slots");
    each(writer, output, &Texts, slots);
    writer.key(output, true, "super");
    class_name(writer, output, version, parent);
    writer.put(output, "}");
    writer.put(output, "}");
}

/// Writes what was installed.
pub fn install<O: Output>(
    writer: &mut TextWriter,
    output: &mut O,
    version: &Version,
    class: ClassId,
    source: &[u8],
)
    requires { is_utf8 source.now ≡ true }
    ensures { Puts O.contents O.failures O.flushes output.old output.new writer.old writer.new (compact_text (install_json version.now class source.now)) }
{
    writer.put(output, "{");
    writer.key(output, false, "install");
    writer.put(output, "{");
    writer.key(output, false, "class");
    class_name(writer, output, version, class);
    writer.key(output, true, "source");
    writer.text(output, source);
    writer.put(output, "}");
    writer.put(output, "}");
}

/// Writes what was removed.
pub fn remove<O: Output>(
    writer: &mut TextWriter,
    output: &mut O,
    names: &Names,
    version: &Version,
    class: ClassId,
    selector: Selector,
)
    ensures { Puts O.contents O.failures O.flushes output.old output.new writer.old writer.new (compact_text (remove_json names.now version.now class selector)) }
{
    writer.put(output, "{");
    writer.key(output, false, "remove");
    writer.put(output, "{");
    writer.key(output, false, "class");
    class_name(writer, output, version, class);
    writer.key(output, true, "selector");
    selector_name(writer, output, names, selector);
    writer.put(output, "}");
    writer.put(output, "}");
}

/// Writes which class got another superclass.
pub fn reparent<O: Output>(
    writer: &mut TextWriter,
    output: &mut O,
    version: &Version,
    class: ClassId,
    parent: ClassId,
)
    ensures { Puts O.contents O.failures O.flushes output.old output.new writer.old writer.new (compact_text (reparent_json version.now class parent)) }
{
    writer.put(output, "{");
    writer.key(output, false, "reparent");
    writer.put(output, "{");
    writer.key(output, false, "class");
    class_name(writer, output, version, class);
    writer.key(output, true, "super");
    class_name(writer, output, version, parent);
    writer.put(output, "}");
    writer.put(output, "}");
}

/// Writes an edit.
fn edit<O: Output>(
    writer: &mut TextWriter,
    output: &mut O,
    names: &Names,
    version: &Version,
    edit: &Edit,
)
    requires { EditIsText (spec.edit_text names.now version.now edit.now) }
    ensures { Puts O.contents O.failures O.flushes output.old output.new writer.old writer.new (compact_text (edit_json names.now version.now edit.now)) }
{
    match edit {
        Edit::Define {
            name,
            parent,
            slots,
        } => define(
            writer,
            output,
            version,
            name.as_slice(),
            *parent,
            slots.as_slice(),
        ),
        Edit::Install { class, method } => {
            install(writer, output, version, *class, method.source());
        }
        Edit::Remove { class, selector } => {
            remove(writer, output, names, version, *class, *selector);
        }
        Edit::Reparent { class, parent } => {
            reparent(writer, output, version, *class, *parent);
        }
    }
}

/// Writes the edits. Their sources are UTF-8, because the methods are compiled from them.
pub fn edits<O: Output>(writer: &mut TextWriter, output: &mut O, names: &Names, version: &Version)
    requires { AllCompiled names.now version.now }
    ensures { Puts O.contents O.failures O.flushes output.old output.new writer.old writer.new (compact_text (lists.each (edit_json names.now version.now) version.now)) }
{
    names.known();
    version.known();
    writer.put(output, "[");
    let mut later = false;
    for place in 0..version.edits() {
        match version.edit(place) {
            Some(made) => {
                writer.comma(output, later);
                edit(writer, output, names, version, made);
            }
            None => unreachable!(),
        }
        later = true;
    }
    writer.put(output, "]");
}

/// Writes the names after the kernel's.
pub fn new_names<O: Output>(writer: &mut TextWriter, output: &mut O, names: &Names)
    ensures { Puts O.contents O.failures O.flushes output.old output.new writer.old writer.new (compact_text (lists.texts (drop 22 names.now))) }
{
    names.known();
    writer.put(output, "[");
    let mut later = false;
    for number in KERNEL_NAMES..names.len() as u16 {
        writer.comma(output, later);
        writer.text(output, names.text(Selector(number)));
        later = true;
    }
    writer.put(output, "]");
}
