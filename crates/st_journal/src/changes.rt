//! What is done to a file, for proofs.

/// A change of a file.
#[derive(Drop)]
pub enum Change {
    /// Bytes were written at an offset, or that failed.
    Written {
        at: usize,
        bytes: Vec<u8>,
        is_done: bool,
    },
    /// The file was cut to a length, or that failed.
    Cut {
        len: usize,
        is_done: bool,
    },
    /// All is on the disk, or that failed.
    Synced {
        is_done: bool,
    },
}
