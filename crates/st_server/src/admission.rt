//! How many sessions at a time may have what many at once would take from all others.
use std::sync::atomic::{AtomicU64, Ordering};
use std::sync::{Mutex, MutexGuard, Wait};

/// How many queries are answered at once, at most. A query may take a millisecond of a processor, and many sessions that ask leave
/// processors to others.
const QUERIES: usize = 2;

/// One session at a time has the image saved, and few answer queries.
#[derive(Drop)]
pub struct Admission {
    save: Mutex<()>,
    queries: [Mutex<()>; QUERIES],
    /// How many queries have been asked.
    asked: AtomicU64,
}

impl Admission {
    pub fn new() -> Admission {
        Admission {
            save: Mutex::new(()),
            queries: [Mutex::new(()), Mutex::new(())],
            asked: AtomicU64::new(0),
        }
    }

    /// Waits until the image may be saved for a session.
    pub(crate) fn save<R: Wait>(&self, rt: &R) -> MutexGuard<'_, ()> {
        self.save.lock(rt)
    }

    /// Waits until a query may be answered.
    pub(crate) fn query<R: Wait>(&self, rt: &R) -> MutexGuard<'_, ()> {
        let number = self.asked.fetch_add(1, Ordering::SeqCst);
        self.queries[number as usize % QUERIES].lock(rt)
    }
}
