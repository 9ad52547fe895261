//! Writes lists.
ghost use Rattle.std.specs.Prelude.{All};
ghost use Rattle.serde_json.specs.Written.{compact_text};
ghost use Rattle.st_file.specs.ListJson.{each as each_of};
ghost use Rattle.st_file.specs.TextWriters.{Puts};

use crate::saving::text_writer::TextWriter;
use st_wire::streams::Output;

/// What is written of items of a type.
pub trait Writes<T> {
    ghost use Rattle.serde_json.specs.Data.{Data};
    ghost use Rattle.serde_json.specs.Written.{compact_text};
    ghost use Rattle.st_file.specs.TextWriters.{Puts};

    /// An item can be written.
    ghost can_be_written: { Self → T → Type 0 };

    /// The JSON value of an item.
    ghost json: { Self → T → Data };

    /// Writes an item.
    fn write<O: Output>(&self, writer: &mut TextWriter, output: &mut O, item: &T)
        requires { can_be_written self.now item.now }
        ensures { Puts O.contents O.failures O.flushes output.old output.new writer.old writer.new (compact_text (json self.now item.now)) };
}

/// Writes a list of items.
pub fn each<O: Output, T, W: Writes<T>>(writer: &mut TextWriter, output: &mut O, by: &W, list: &[T])
    requires { All (W.can_be_written by.now) list.now }
    ensures { Puts O.contents O.failures O.flushes output.old output.new writer.old writer.new (compact_text (each_of (W.json by.now) list.now)) }
{
    writer.put(output, "[");
    let mut later = false;
    for item in list {
        writer.comma(output, later);
        by.write(writer, output, item);
        later = true;
    }
    writer.put(output, "]");
}
