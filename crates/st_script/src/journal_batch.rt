//! What is told in a journal, until it is there.
use crate::images::Image;
use crate::keepers::JournalWriter;
use st_classes::names::Names;
use st_classes::refusals::Refusal;
use st_classes::version::Version;
use st_image::history::Item;
use st_journal::entries::Entry;
use st_journal::lines::write_lines;
use st_journal::telling::tell_since;
use st_wire::streams::MemoryOutput;
use std::alloc::Global;

/// How many items are told at once at most.
pub const MOST_TOLD: usize = 1024;

/// A batch of so many bytes is written before more is told.
const MOST_BYTES: usize = 1 << 20;

/// What is told of an image, and not written yet.
#[derive(Drop)]
pub struct JournalBatch {
    /// How many names are told.
    names: u32,
    /// How many items of a history are told.
    items: usize,
    /// What is told and not written.
    text: Vec<u8>,
}

/// The lines of entries.
fn lines(
    alloc: Global,
    names: &Names,
    table: &Version,
    entries: &[Entry],
) -> Result<MemoryOutput, Refusal> {
    let mut lines = MemoryOutput::new(alloc);
    match write_lines(alloc, names, table, entries, &mut lines) {
        Ok(_) => Ok(lines),
        Err(_) => Err(Refusal::NoMemory),
    }
}

impl JournalBatch {
    /// So many names and items are told, and written.
    pub fn new(alloc: Global, names: u32, items: usize) -> JournalBatch {
        JournalBatch {
            names,
            items,
            text: Vec::new(alloc),
        }
    }

    /// How many items of a history are told.
    pub fn items(&self) -> usize {
        self.items
    }

    /// Whether what is told is to be written before more is.
    pub fn is_much(&self) -> bool {
        self.text.len() >= MOST_BYTES
    }

    /// Tells the names behind those that are told, and the next items of a history. After an error nothing is told.
    pub fn tell(
        &mut self,
        alloc: Global,
        names: &Names,
        table: &Version,
        items: &[Item],
    ) -> Result<(), Refusal> {
        let entries = tell_since(alloc, names, self.names, items)?;
        let lines = lines(alloc, names, table, entries.as_slice())?;
        self.text.extend_from_slice(lines.as_slice())?;
        self.names = names.len();
        self.items = self.items.saturating_add(items.len());
        Ok(())
    }

    /// Tells a checkpoint, behind which the history begins anew. After an error nothing is told.
    pub fn tell_checkpoint(
        &mut self,
        alloc: Global,
        names: &Names,
        table: &Version,
    ) -> Result<(), Refusal> {
        let lines = lines(alloc, names, table, &[Entry::Checkpoint])?;
        self.text.extend_from_slice(lines.as_slice())?;
        self.items = 0;
        Ok(())
    }

    /// Has what is told written, if anything is: its lines, and an empty line. After an error it is written the next time, with what is told
    /// by then.
    pub fn write<W: JournalWriter>(&mut self, alloc: Global, journal: &W) -> Result<(), Refusal> {
        if self.text.is_empty() {
            return Ok(());
        }
        self.text.extend_from_slice(b"\n")?;
        match journal.append(alloc, self.text.as_slice()) {
            Ok(()) => {
                self.text.clear();
                Ok(())
            }
            Err(refusal) => {
                self.text.pop();
                Err(refusal)
            }
        }
    }

    /// Tells all of an image that is not told, and has it written where it is much. After an error some of it is.
    pub fn tell_image<W: JournalWriter>(
        &mut self,
        alloc: Global,
        journal: &W,
        image: &Image,
    ) -> Result<(), Refusal> {
        let (names, table) = (image.names(), image.version());
        let behind = image.history().get(self.items..).unwrap_or(&[]);
        for items in behind.chunks(MOST_TOLD) {
            if self.is_much() {
                self.write(alloc, journal)?;
            }
            self.tell(alloc, names, table, items)?;
        }
        if self.names < names.len() {
            self.tell(alloc, names, table, &[])?;
        }
        Ok(())
    }

    /// Tells that an image has had a checkpoint, of which all that was before is told. After an error nothing is told.
    pub fn tell_emptied(&mut self, alloc: Global, image: &Image) -> Result<(), Refusal> {
        self.tell_checkpoint(alloc, image.names(), image.version())
    }
}
