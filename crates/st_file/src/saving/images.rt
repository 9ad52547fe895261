//! Writes images.
ghost use Rattle.serde_json.specs.Written.{compact_text};
ghost use Rattle.st_image.specs.CompiledEdits.{AllCompiled};
ghost use Rattle.st_file.specs.ImageJson.{client_json, image_json};
ghost use Rattle.st_file.specs.TextWriters.{Puts};

use crate::saving::lists::{Writes, each};
use crate::saving::tables::{edits, new_names};
use crate::saving::text_writer::TextWriter;
use crate::saving::values::Table;
use st_classes::names::Names;
use st_classes::version::Version;
use st_image::actor_part::ActorPart;
use st_image::counts::Counts;
use st_wire::streams::Output;

/// Clients, each with the number of its last message.
struct Clients;

impl Writes<(u16, u64)> for Clients {
    ghost can_be_written = { λ w c. Unit {0} };

    ghost json = { λ w c. client_json c };

    fn write<O: Output>(&self, writer: &mut TextWriter, output: &mut O, item: &(u16, u64)) {
        let (client, last) = *item;
        writer.put(output, "[");
        writer.whole(output, client.into());
        writer.put(output, ",");
        writer.whole(output, last);
        writer.put(output, "]");
    }
}

/// Writes an image by its names, class table, actors, clients and counts.
pub(crate) fn image<O: Output>(
    writer: &mut TextWriter,
    output: &mut O,
    names: &Names,
    version: &Version,
    actors: &[ActorPart],
    clients: &[(u16, u64)],
    counts: Counts,
)
    requires { AllCompiled names.now version.now }
    ensures { Puts O.contents O.failures O.flushes output.old output.new writer.old writer.new (compact_text (image_json names.now version.now actors.now clients.now counts)) }
{
    let table = Table { names, version };
    writer.put(output, "{");
    writer.key(output, false, "actors");
    each(writer, output, &table, actors);
    writer.key(output, true, "edits");
    edits(writer, output, names, version);
    writer.key(output, true, "format");
    writer.whole(output, 2);
    writer.key(output, true, "names");
    new_names(writer, output, names);
    writer.key(output, true, "posts");
    writer.whole(output, counts.posts);
    writer.key(output, true, "senders");
    each(writer, output, &Clients, clients);
    writer.key(output, true, "steps");
    writer.whole(output, counts.steps);
    writer.put(output, "}");
}
