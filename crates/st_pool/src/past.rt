//! The histories that checkpoints have emptied, for one who has not read them yet.
use st_image::history::Item;
use std::alloc::{AllocError, Global};

/// How many histories are kept at most. Each has at most as many items as the image's settings allow.
const MOST: usize = 16;

/// Histories that checkpoints have emptied, the oldest first, if anybody reads them.
#[derive(Drop)]
pub(crate) struct Past {
    histories: Option<Vec<Vec<Item>>>,
}

impl Past {
    /// None, which nobody reads.
    pub(crate) fn none() -> Past {
        Past { histories: None }
    }

    /// From now on each history is kept until it is taken.
    pub(crate) fn keep(&mut self, alloc: Global) {
        self.histories = Some(Vec::new(alloc));
    }

    /// Makes room for one history more, if anybody reads them. Fails if memory runs out, or if too many are there that nobody has taken.
    pub(crate) fn make_room(&mut self) -> Result<(), AllocError> {
        match &mut self.histories {
            Some(histories) if histories.len() < MOST => histories.reserve(1),
            Some(_) => Err(AllocError),
            None => Ok(()),
        }
    }

    /// Keeps a history for which room was made, if anybody reads them.
    pub(crate) fn add(&mut self, history: Vec<Item>) {
        if let Some(histories) = &mut self.histories {
            if histories.len() < histories.capacity() {
                histories.push_reserved(history);
            }
        }
    }

    /// Takes the oldest history.
    pub(crate) fn take(&mut self) -> Option<Vec<Item>> {
        match &mut self.histories {
            Some(histories) if !histories.is_empty() => Some(histories.remove(0)),
            _ => None,
        }
    }
}
