//! The first line of a journal: it ties the journal to the image file that it goes on from.
//!
//! ```text
//! {"journal":{"capacity":64,"format":1,"image":"e3b0c442.."}}
//! ```
ghost use Rattle.std.specs.Prelude.{◌≡◌, IfOk, OnOk};
ghost use Rattle.std.specs.Io.KnownBytes.{Appends};
ghost use Rattle.serde_json.specs.Written.{compact_text};
ghost use Rattle.st_file.specs.TextWriters.{Puts};
ghost use Rattle.st_journal.specs.Headers.{header_json, header_line};

use st_file::saving::text_writer::TextWriter;
use st_wire::streams::{MemoryOutput, Output, WriteFailed};
use std::alloc::{AllocError, Global};

/// Writes the JSON value of a header.
fn write<O: Output>(writer: &mut TextWriter, output: &mut O, digest: &str, capacity: u32)
    ensures { Puts O.contents O.failures O.flushes output.old output.new writer.old writer.new (compact_text (header_json digest.now capacity)) }
{
    writer.put(output, "{");
    writer.key(output, false, "journal");
    writer.put(output, "{");
    writer.key(output, false, "capacity");
    writer.whole(output, capacity.into());
    writer.key(output, true, "format");
    writer.whole(output, 1);
    writer.key(output, true, "image");
    writer.word(output, digest);
    writer.put(output, "}");
    writer.put(output, "}");
}

/// Writes a header's line.
fn write_line<O: Output>(
    alloc: Global,
    output: &mut O,
    digest: &str,
    capacity: u32,
) -> Result<u64, WriteFailed>
    ensures { OnOk result (Appends (O.contents output.old) (O.contents output.new) (header_line digest.now capacity)) }
{
    let mut writer = TextWriter::new(alloc);
    write(&mut writer, output, digest, capacity);
    writer.put(output, "\n");
    writer.finish(output)
}

/// The first line of a journal that goes on from the image whose file's text has this digest, where new mailboxes have this capacity.
/// Fails only if memory runs out.
pub fn header(alloc: Global, digest: &str, capacity: u32) -> Result<Vec<u8>, AllocError>
    ensures { IfOk result (λ line. line.items ≡ header_line digest.now capacity) }
{
    let mut output = MemoryOutput::new(alloc);
    match write_line(alloc, &mut output, digest, capacity) {
        Ok(_) => output.as_slice().to_vec(alloc),
        Err(_) => Err(AllocError),
    }
}
