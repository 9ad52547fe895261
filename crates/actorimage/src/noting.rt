//! What a script has led to, until it is in its journal.
use crate::keeping::FileKeeper;
use st_classes::refusals::Refusal;
use st_script::images::Image;
use st_script::journal_batch::JournalBatch;
use st_script::keepers::JournalWriter;
use std::alloc::Global;
use std::io::{self, ErrorKind, Write};

/// What is told of the image of a script.
#[derive(Drop)]
pub struct Noted {
    batch: JournalBatch,
    /// Whether something could not be told.
    has_failed: bool,
}

impl Noted {
    /// All that there is of an image is told.
    pub fn new(alloc: Global, image: &Image) -> Noted {
        Noted {
            batch: JournalBatch::new(alloc, image.names().len(), image.history().len()),
            has_failed: false,
        }
    }

    /// Tells what there is of an image and is not told.
    pub fn note<W: JournalWriter>(&mut self, alloc: Global, journal: &W, image: &Image) {
        if self.batch.tell_image(alloc, journal, image).is_err() {
            self.has_failed = true;
        }
    }

    /// Tells that the image has had a checkpoint.
    pub fn note_checkpoint(&mut self, alloc: Global, image: &Image) {
        if self.batch.tell_emptied(alloc, image).is_err() {
            self.has_failed = true;
        }
    }

    /// Has what is told written. Once something could not be told, this fails.
    pub fn write<W: JournalWriter>(&mut self, alloc: Global, journal: &W) -> Result<(), Refusal> {
        if self.has_failed {
            return Err(Refusal::WriteFault);
        }
        self.batch.write(alloc, journal)
    }
}

/// The output of a script. Before it passes replies on, what they tell is in the journal and on the disk.
#[derive(Drop)]
pub struct NotedOutput<'a, W: Write> {
    pub alloc: Global,
    pub keeper: &'a FileKeeper<'a>,
    pub output: W,
}

impl<'a, W: Write> Write for NotedOutput<'a, W> {
    fn write(&mut self, bytes: &[u8]) -> io::Result<usize> {
        match self.keeper.write_noted(self.alloc) {
            Ok(()) => self.output.write(bytes),
            Err(_) => Err(io::Error::from(ErrorKind::Other)),
        }
    }

    fn flush(&mut self) -> io::Result<()> {
        self.output.flush()
    }
}
