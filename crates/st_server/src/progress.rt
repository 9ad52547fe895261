//! How far a journal is, and what is told next.
use crate::readings::{Behind, Read};
use st_classes::refusals::Refusal;
use st_script::journal_batch::{JournalBatch, MOST_TOLD};
use st_script::keepers::JournalSettings;
use std::alloc::Global;

/// How many bytes and how many steps a unit of [`JournalSettings::save_after`] stands for.
const BYTES: u64 = 1_000_000;

const STEPS: u64 = 31_250_000;

/// How far a journal is.
#[derive(Drop)]
pub(crate) struct Progress {
    /// What is told, of the history that was read or else of the present one.
    pub(crate) batch: JournalBatch,
    /// What was read of a history that a checkpoint has emptied, until all of it is told.
    pub(crate) past: Option<Read>,
    /// How many steps the image had counted when it was read last.
    pub(crate) steps: u64,
    /// The image is saved when the journal has so many bytes,
    most_bytes: u64,
    /// or when the image has counted so many steps.
    most_steps: u64,
}

impl Progress {
    /// Nothing is told but so many names and items, of an image that has counted so many steps.
    pub(crate) fn new(alloc: Global, names: u32, items: usize, steps: u64) -> Progress {
        Progress {
            batch: JournalBatch::new(alloc, names, items),
            past: None,
            steps,
            most_bytes: u64::MAX,
            most_steps: u64::MAX,
        }
    }

    /// Whether the image is to be saved.
    pub(crate) fn is_due(&self, end: u64) -> bool {
        end >= self.most_bytes || self.steps >= self.most_steps
    }

    /// The image is saved next when that much more has happened.
    pub(crate) fn wait_for_more(&mut self, end: u64, settings: JournalSettings) {
        let units = u64::from(settings.save_after);
        self.most_bytes = end.saturating_add(units.saturating_mul(BYTES));
        self.most_steps = self.steps.saturating_add(units.saturating_mul(STEPS));
    }

    /// What is to be read next, so many items at most.
    pub(crate) fn behind(&self, most: usize) -> Behind {
        Behind {
            items: self.batch.items(),
            most,
            takes_past: self.past.is_none(),
        }
    }

    /// Tells what was read of the present history. After an error nothing is told.
    pub(crate) fn tell_present(&mut self, alloc: Global, read: &Read) -> Result<(), Refusal> {
        self.batch
            .tell(alloc, &read.names, read.table.shown(), &read.items)
    }

    /// Tells some of a history that a checkpoint has emptied, and the checkpoint behind the last of it. The answer is whether all is told.
    pub(crate) fn tell_past(&mut self, alloc: Global, read: &Read) -> Result<bool, Refusal> {
        let from = self.batch.items().min(read.items.len());
        let count = MOST_TOLD.min(read.items.len() - from);
        let (names, table) = (&read.names, read.table.shown());
        if count > 0 {
            let items = &read.items[from..from + count];
            self.batch.tell(alloc, names, table, items)?;
            return Ok(false);
        }
        self.batch.tell_checkpoint(alloc, names, table)?;
        Ok(true)
    }
}
