//! A file of the system as a device of a log.
//!
//! No clause says what the system does. A [`FileDevice`] has the bytes that were read when it was opened, and the changes that the system
//! said were done since: so what is proved of a log on it holds of a file that keeps what was written to it, as [`Device`] has it. Nor does
//! a clause say that a change is asked of the file as it is noted: that stands in the code of the device alone.
ghost use Rattle.std.specs.Prelude.{◌≡◌, ℕ, Some, Vec, false, length, reverse, true};
ghost use Rattle.std.specs.declared.alloc.Global.{Global};
ghost use Rattle.st_journal.specs.FileDevices.{BeginWithin, BeginWithin-prop, all_done, first_bytes, contents_of, counts_now, left_since_of, may_leave_of, only_now};

use crate::changes::Change;
use st_log::device::{Device, DeviceError};
use st_turn::ghost_list::GhostList;
use std::alloc::Global;

/// A file has fewer bytes.
const LIMIT: usize = 1 << 63;

/// What is asked of a file. Each call answers whether it was done.
pub trait FileCalls {
    /// Writes all bytes at an offset.
    fn write(&mut self, at: usize, bytes: &[u8]) -> bool;

    /// Cuts the file to a length.
    fn cut(&mut self, len: usize) -> bool;

    /// Waits until all is on the disk.
    fn sync(&mut self) -> bool;
}

/// A file, of which all was read when it was opened. What was read is given out once; behind a change nothing can be read.
///
/// Where a call of the file fails, each later call of the device fails too, and asks nothing of the file.
#[derive(Drop)]
pub struct FileDevice<F: FileCalls> {
    alloc: Global,
    file: F,
    /// What was read, until it is given out or changed.
    bytes: Option<Vec<u8>>,
    /// The same, for proofs.
    opened: GhostList<Vec<u8>>,
    /// What was done since, for proofs.
    changes: GhostList<Change>,
    /// Whether a call of the file has failed.
    is_broken: bool,
    last_error: Option<DeviceError>,
    ghost bytes_are_contents: { (v : Vec ℕ Global) → bytes ≡ Some v → v.items ≡ contents_of (first_bytes opened.items) (reverse changes.items) },
    ghost none_failed: { is_broken ≡ false → all_done (reverse changes.items) ≡ true },
    ghost begin_within: { BeginWithin (first_bytes opened.items) (reverse changes.items) } by { BeginWithin-prop (first_bytes opened.items) (reverse changes.items) },
}

/// Notes why a call fails.
fn fail<T>(last_error: &mut Option<DeviceError>, error: DeviceError) -> Result<T, DeviceError>
    ensures value { result ≡ Err error }
    ensures noted { last_error.new ≡ Some error }
{
    *last_error = Some(error);
    Err(error)
}

impl<F: FileCalls> FileDevice<F> {
    ghost use Rattle.std.specs.Prelude.{◌≡◌};
    ghost use Rattle.st_journal.specs.Opened.{device_contents};

    /// A file that was just opened and read.
    pub fn new(alloc: Global, file: F, bytes: Vec<u8>) -> FileDevice<F>
        ensures bytes { device_contents result ≡ bytes.items }
    {
        let opened = GhostList::new().and(&bytes);
        FileDevice {
            alloc,
            file,
            bytes: Some(bytes),
            opened,
            changes: GhostList::new(),
            is_broken: false,
            last_error: None,
        }
    }
}

impl<F: FileCalls> Device for FileDevice<F> {
    ghost contents = { λ d. contents_of (first_bytes d.opened.items) (reverse d.changes.items) };

    ghost may_leave = { λ d c. may_leave_of (first_bytes d.opened.items) (reverse d.changes.items) c };

    ghost moment = { λ d. length d.changes.items };

    ghost left_since = { λ d t c. left_since_of (first_bytes d.opened.items) (reverse d.changes.items) t c };

    ghost last_error = { λ d. d.last_error };

    ghost counts_now = { λ d t c le now. counts_now (first_bytes d.opened.items) d.changes.items t c le now };

    ghost only_now = { λ d c left. only_now (first_bytes d.opened.items) d.changes.items c left };

    /// All the bytes, the first time and before any change. Behind a change, and a second time, nothing can be read.
    fn read(&mut self, _alloc: Global) -> Result<Vec<u8>, DeviceError> {
        let Some(bytes) = self.bytes.take() else {
            return fail(&mut self.last_error, DeviceError::Failed);
        };
        self.last_error = None;
        Ok(bytes)
    }

    /// Copies the bytes first, for proofs. If there is no memory for that, nothing is done.
    fn write_at(&mut self, at: usize, bytes: &[u8]) -> Result<(), DeviceError> {
        if self.is_broken || at >= LIMIT || bytes.len() >= LIMIT - at {
            return fail(&mut self.last_error, DeviceError::Failed);
        }
        let Ok(copy) = bytes.to_vec(self.alloc) else {
            return fail(&mut self.last_error, DeviceError::NoMemory);
        };
        self.bytes = None;
        let is_done = self.file.write(at, bytes);
        self.changes = self.changes.and(&Change::Written {
            at,
            bytes: copy,
            is_done,
        });
        if !is_done {
            self.is_broken = true;
            return fail(&mut self.last_error, DeviceError::Failed);
        }
        self.last_error = None;
        Ok(())
    }

    fn truncate(&mut self, len: usize) -> Result<(), DeviceError> {
        if self.is_broken {
            return fail(&mut self.last_error, DeviceError::Failed);
        }
        self.bytes = None;
        let is_done = self.file.cut(len);
        self.changes = self.changes.and(&Change::Cut { len, is_done });
        if !is_done {
            self.is_broken = true;
            return fail(&mut self.last_error, DeviceError::Failed);
        }
        self.last_error = None;
        Ok(())
    }

    fn sync(&mut self) -> Result<(), DeviceError> {
        if self.is_broken {
            return fail(&mut self.last_error, DeviceError::Failed);
        }
        let is_done = self.file.sync();
        self.changes = self.changes.and(&Change::Synced { is_done });
        if !is_done {
            self.is_broken = true;
            self.bytes = None;
            return fail(&mut self.last_error, DeviceError::Failed);
        }
        self.last_error = None;
        Ok(())
    }
}
