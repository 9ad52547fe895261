//! An image at one moment, as plain data.
use crate::ranges::all_in_range;
use crate::saving::images::image;
use crate::saving::text_writer::TextWriter;
use st_classes::names::Names;
use st_classes::token::Token;
use st_image::actor_part::ActorPart;
use st_image::counts::Counts;
use st_image::image::Image;
use st_image::loader::reloads;
use st_mailbox::mailboxes::Mailbox;
use st_wire::streams::Output;
use std::alloc::{AllocError, Global};
use std::marker::Model;

/// All that the file of an image says of it at one moment. The image may go on meanwhile.
#[derive(Drop)]
pub struct ImageSnapshot {
    names: Names,
    table: Token,
    parts: Vec<ActorPart>,
    clients: Vec<(u16, u64)>,
    counts: Counts,
}

impl Model for ImageSnapshot {
    ghost use Rattle.st_image.specs.Parts.{world_of_parts};
    ghost use Rattle.st_file.specs.ImageSnapshots.{AreOfImage, ImageSnapshotView};

    ghost Value = { ImageSnapshotView };

    ghost view = { λ m. record { names = m.names; base = world_of_parts m.table m.parts.items m.clients.items; counts = m.counts } };

    ghost invariant = { λ m. AreOfImage m.names m.table m.parts.items m.clients.items m.counts };
}

impl ImageSnapshot {
    ghost use Rattle.std.specs.Prelude.{◌≡◌, IfOk};
    ghost use Rattle.st_file.specs.ImageSnapshots.{snapshot_of};
    ghost use Rattle.serde_json.specs.Data.{Data};
    ghost use Rattle.serde_json.specs.Written.{compact_text};
    ghost use Rattle.st_file.specs.Saving.{IsWrittenAs};
    ghost use Rattle.st_file.specs.TextWriters.{Puts};

    /// What an image is now. The actors with their bodies and pending messages are copied, and the clients' numbers; the names and the
    /// class table are shared. Fails only if memory runs out.
    pub fn of<M: Mailbox>(alloc: Global, image: &Image<M>) -> Result<ImageSnapshot, AllocError>
        ensures { IfOk result (λ m. m ≡ snapshot_of image.now) }
    {
        image.known();
        image.all_compiled();
        image.can_be_base();
        let counts = image.counted();
        let names = image.names().again()?;
        let table = image.token().again()?;
        let clients = image.clients(alloc)?;
        let parts = image.parts(alloc)?;
        Ok(ImageSnapshot {
            names,
            table,
            parts,
            clients,
            counts,
        })
    }

    /// Writes the text of its document.
    pub(crate) fn write<O: Output>(&self, writer: &mut TextWriter, output: &mut O)
        ensures { (v : Data) × IsWrittenAs v self.now × Puts O.contents O.failures O.flushes output.old output.new writer.old writer.new (compact_text v) }
    {
        reloads();
        self.names.known();
        all_in_range(&self.parts);
        all_in_range(&self.clients);
        let version = self.table.shown();
        version.known();
        image(
            writer,
            output,
            &self.names,
            version,
            &self.parts,
            &self.clients,
            self.counts,
        );
    }
}
