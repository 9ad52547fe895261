//! The files of journals: how they are opened, held, recovered and written.
use crate::failures::Failure;
use crate::new_files::HELD_BY_ANOTHER;
use st_classes::refusals::{ImagePlace, Refusal};
use st_journal::files::{FileCalls, FileDevice};
use st_log::device::DeviceError;
use st_log::lines::whole_len;
use st_log::recovered::Recovered;
use std::alloc::Global;
use std::fs::{self, File, Files, TryLockError};
use std::io::{self, ErrorKind, Read, Write};
use std::os::unix::fs::{FileExt, OpenOptionsExt};
use std::sync::Arc;
use std::sync::atomic::{AtomicI32, Ordering};

/// A journal is for its owner alone: it has all that was posted.
const OWNER_ALONE: u32 = 0o600;

/// Why the system refused a call of a journal's file last. All that [`LastError::again`] gives are this one.
#[derive(Drop)]
pub struct LastError {
    /// The number of the system's error, or 0.
    code: Arc<AtomicI32>,
}

impl LastError {
    /// Nothing was refused.
    pub fn new(alloc: Global) -> Result<LastError, Refusal> {
        match Arc::new(alloc, AtomicI32::new(0)) {
            Ok(code) => Ok(LastError { code }),
            Err(_) => Err(Refusal::NoMemory),
        }
    }

    /// The same one, for another owner. There may be no memory for many owners.
    pub fn again(&self) -> Result<LastError, Refusal> {
        match self.code.clone() {
            Ok(code) => Ok(LastError { code }),
            Err(_) => Err(Refusal::NoMemory),
        }
    }

    /// Whether a call was done. If it was not, that is noted.
    fn is_done(&self, answer: io::Result<()>) -> bool {
        match answer {
            Ok(()) => true,
            Err(error) => {
                let code = error.raw_os_error().unwrap_or(0);
                self.code.store(code, Ordering::SeqCst);
                false
            }
        }
    }

    /// The refusal of a journal that cannot be written, for what a device says of it.
    pub fn of(&self, alloc: Global, path: &str, error: DeviceError) -> Failure {
        let code = self.code.swap(0, Ordering::SeqCst);
        match error {
            DeviceError::NoMemory => Failure::from(Refusal::NoMemory),
            DeviceError::Failed if code == 0 => {
                Failure::of(alloc, Refusal::WriteFault, path, "cannot be written")
            }
            DeviceError::Failed => {
                let error = io::Error::from_raw_os_error(code);
                Failure::at(alloc, Refusal::WriteFault, path, &error)
            }
        }
    }
}

/// A file of the system.
#[derive(Drop)]
pub struct SystemFile {
    file: File,
    last_error: LastError,
}

impl FileCalls for SystemFile {
    fn write(&mut self, at: usize, bytes: &[u8]) -> bool {
        self.last_error
            .is_done(self.file.write_all_at(bytes, at as u64))
    }

    fn cut(&mut self, len: usize) -> bool {
        self.last_error.is_done(self.file.set_len(len as u64))
    }

    fn sync(&mut self) -> bool {
        self.last_error.is_done(self.file.sync_data())
    }
}

/// The lines of a journal, which is open.
pub type Lines = Recovered<FileDevice<SystemFile>>;

/// Whether a file is at a path, or something that cannot be looked at.
pub fn is_there<R: Files>(rt: &R, path: &str) -> bool {
    match fs::symlink_metadata(rt, path) {
        Ok(_) => true,
        Err(error) => error.kind() != ErrorKind::NotFound,
    }
}

/// The refusal of a journal's file, for what the system says.
pub fn unread(alloc: Global, path: &str, error: &std::io::Error) -> Failure {
    Failure::at(alloc, Refusal::ReadFault, path, error)
}

/// Opens a journal to read it alone.
pub fn open_to_read<R: Files<File = File>>(
    rt: &R,
    alloc: Global,
    path: &str,
) -> Result<File, Failure> {
    match File::open(rt, path) {
        Ok(file) => Ok(file),
        Err(error) => Err(unread(alloc, path, &error)),
    }
}

/// All that an open file has.
pub fn read_whole(alloc: Global, mut file: &File, path: &str) -> Result<Vec<u8>, Failure> {
    let mut bytes = Vec::new(alloc);
    match file.read_to_end(&mut bytes) {
        Ok(_) => Ok(bytes),
        Err(error) if error.kind() == ErrorKind::OutOfMemory => {
            Err(Failure::from(Refusal::NoMemory))
        }
        Err(error) => Err(unread(alloc, path, &error)),
    }
}

/// Opens and locks the journal at a path, which is made if it is not there.
fn locked<R: Files<File = File>>(rt: &R, alloc: Global, path: &str) -> Result<File, Failure> {
    let mut options = File::options();
    let options = options
        .read(true)
        .write(true)
        .create(true)
        .mode(OWNER_ALONE);
    let file = match options.open(rt, path) {
        Ok(file) => file,
        Err(error) => return Err(Failure::at(alloc, Refusal::WriteFault, path, &error)),
    };
    match file.try_lock() {
        Err(TryLockError::WouldBlock) => {
            Err(Failure::of(alloc, Refusal::WriteFault, path, HELD_BY_ANOTHER))
        }
        _ => Ok(file),
    }
}

/// Whether a crash may have left this behind the whole lines of a journal: nothing, or an empty line, and whatever was written behind that;
/// or bytes that no write has reached.
fn may_be_left(rest: &[u8]) -> bool {
    rest.first() == Some(&b'\n') || rest.iter().all(|byte| *byte == 0)
}

/// Refuses a journal with something behind its whole lines that no crash leaves: it was damaged there, or is no journal.
fn refuse_damage(alloc: Global, path: &str, bytes: &[u8]) -> Result<(), Failure> {
    let end = whole_len(bytes);
    if may_be_left(bytes.get(end..).unwrap_or(&[])) {
        return Ok(());
    }
    let lines = bytes.get(..end).unwrap_or(&[]);
    let before = lines.iter().filter(|byte| **byte == b'\n').count();
    let line = before.saturating_add(1);
    Err(Failure {
        refusal: Refusal::BadImage {
            place: ImagePlace::Shape,
        },
        words: format!(in alloc; "{path}: line {line}: is damaged").ok(),
    })
}

/// Recovers the journal in an open file. The answer has its lines.
fn recovered(
    alloc: Global,
    path: &str,
    file: File,
    last_error: &LastError,
) -> Result<(Lines, Vec<u8>), Failure> {
    let bytes = read_whole(alloc, &file, path)?;
    refuse_damage(alloc, path, &bytes)?;
    let file = SystemFile {
        file,
        last_error: last_error.again()?,
    };
    let device = FileDevice::new(alloc, file, bytes);
    match Recovered::open(alloc, device) {
        Ok(found) => Ok(found),
        Err(error) => Err(last_error.of(alloc, path, error)),
    }
}

/// Opens, locks and recovers the journal at a path, which is made if it is not there. The answer has its lines.
pub fn open<R: Files<File = File>>(
    rt: &R,
    alloc: Global,
    path: &str,
    last_error: &LastError,
) -> Result<(Lines, Vec<u8>), Failure> {
    let file = locked(rt, alloc, path)?;
    recovered(alloc, path, file, last_error)
}

/// The same, if the journal begins with a header. One that a save was writing may not be whole, and does not count then.
pub fn open_whole<R: Files<File = File>>(
    rt: &R,
    alloc: Global,
    path: &str,
    header: &[u8],
    last_error: &LastError,
) -> Result<Option<(Lines, Vec<u8>)>, Failure> {
    match open(rt, alloc, path, last_error) {
        Ok((lines, text)) if text.starts_with(header) => Ok(Some((lines, text))),
        Ok((lines, text)) => {
            drop((lines, text));
            Ok(None)
        }
        Err(failure) => match failure.refusal {
            Refusal::BadImage { .. } => Ok(None),
            _ => Err(failure),
        },
    }
}

/// Opens the journal at a path again, of which so many bytes are known to be on the disk, and cuts off what is behind them.
pub fn open_again<R: Files<File = File>>(
    rt: &R,
    alloc: Global,
    path: &str,
    end: usize,
    last_error: &LastError,
) -> Result<(Lines, Vec<u8>), Failure> {
    let file = locked(rt, alloc, path)?;
    let end = end as u64;
    let has_all = match file.metadata() {
        Ok(found) => end <= found.len(),
        Err(_) => false,
    };
    if !has_all {
        return Err(changed_by_another(alloc, path));
    }
    match file.set_len(end) {
        Ok(()) => recovered(alloc, path, file, last_error),
        Err(error) => Err(Failure::at(alloc, Refusal::WriteFault, path, &error)),
    }
}

/// The refusal of a journal that another process has changed.
pub fn changed_by_another(alloc: Global, path: &str) -> Failure {
    Failure::of(
        alloc,
        Refusal::WriteFault,
        path,
        "was changed by another process",
    )
}

/// Writes a text to the file at a path, which is made or emptied, and waits until it is on the disk.
pub fn write_whole<R: Files<File = File>>(
    rt: &R,
    alloc: Global,
    path: &str,
    text: &[u8],
) -> Result<(), Failure> {
    let mut options = File::options();
    let options = options
        .write(true)
        .create(true)
        .truncate(true)
        .mode(OWNER_ALONE);
    let written = match options.open(rt, path) {
        Ok(mut file) => match file.write_all(text) {
            Ok(()) => file.sync_all(),
            Err(error) => Err(error),
        },
        Err(error) => Err(error),
    };
    match written {
        Ok(()) => Ok(()),
        Err(error) => Err(Failure::at(alloc, Refusal::WriteFault, path, &error)),
    }
}
