//! Files as devices of a log: each call that fails, and what is there afterwards.
use st_journal::files::{FileCalls, FileDevice};
use st_journal::headers::header;
use st_log::device::{Device, DeviceError};
use st_log::lines::is_batch;
use st_log::recovered::Recovered;
use std::alloc::Global;
use std::sync::Mutex;
use std::test::*;

/// Bytes that lie elsewhere, and after how many calls one fails. A write that fails leaves half of its bytes.
#[derive(Drop)]
struct Kept<'a> {
    bytes: &'a Mutex<Vec<u8>>,
    until_failure: u32,
}

/// Counts a call down, and says whether it is done.
fn is_done(left: &mut u32) -> bool {
    if *left == 0 {
        return false;
    }
    *left -= 1;
    true
}

/// Writes bytes over what is there and behind it.
fn put(bytes: &mut Vec<u8>, at: usize, written: &[u8]) -> bool {
    let end = at.saturating_add(written.len());
    if bytes.len() < end && bytes.resize(end, 0).is_err() {
        return false;
    }
    for (place, byte) in written.iter().enumerate() {
        if let Some(there) = bytes.get_mut(at.saturating_add(place)) {
            *there = *byte;
        }
    }
    true
}

impl<'a> FileCalls for Kept<'a> {
    fn write(&mut self, at: usize, bytes: &[u8]) -> bool {
        let is_whole = is_done(&mut self.until_failure);
        let count = if is_whole {
            bytes.len()
        } else {
            bytes.len() / 2
        };
        match self.bytes.try_lock() {
            Some(mut kept) => put(&mut kept, at, bytes.get(..count).unwrap_or(&[])) && is_whole,
            None => false,
        }
    }

    fn cut(&mut self, len: usize) -> bool {
        let is_whole = is_done(&mut self.until_failure);
        match self.bytes.try_lock() {
            Some(mut kept) => {
                kept.truncate(len);
                is_whole
            }
            None => false,
        }
    }

    fn sync(&mut self) -> bool {
        is_done(&mut self.until_failure)
    }
}

/// The log of a file with bytes, and its lines.
fn opened<'a>(
    alloc: Global,
    bytes: &'a Mutex<Vec<u8>>,
    until_failure: u32,
) -> Result<(Recovered<FileDevice<Kept<'a>>>, Vec<u8>), DeviceError> {
    let copy = match bytes.try_lock() {
        Some(kept) => match kept.to_vec(alloc) {
            Ok(copy) => copy,
            Err(_) => return Err(DeviceError::NoMemory),
        },
        None => return Err(DeviceError::Failed),
    };
    let file = Kept {
        bytes,
        until_failure,
    };
    Recovered::open(alloc, FileDevice::new(alloc, file, copy))
}

/// Whether a batch is added to a log.
fn is_appended(log: Recovered<FileDevice<Kept<'_>>>, batch: &[u8]) -> bool {
    if !is_batch(batch) {
        drop(log);
        return false;
    }
    match log.append(batch) {
        Ok(log) => {
            drop(log);
            true
        }
        Err(_) => false,
    }
}

/// Whether a batch is added to the log of a file, of which one call fails.
fn is_added(alloc: Global, bytes: &Mutex<Vec<u8>>, until_failure: u32, batch: &[u8]) -> bool {
    match opened(alloc, bytes, until_failure) {
        Ok((log, lines)) => {
            drop(lines);
            is_appended(log, batch)
        }
        Err(_) => false,
    }
}

/// The lines of the log of a file.
fn lines_of(alloc: Global, bytes: &Mutex<Vec<u8>>) -> Result<Vec<u8>, DeviceError> {
    match opened(alloc, bytes, u32::MAX) {
        Ok((log, lines)) => {
            drop(log);
            Ok(lines)
        }
        Err(error) => Err(error),
    }
}

/// What a recovery and an append answer where one call fails, and the lines that are there then.
fn appended(alloc: Global, until_failure: u32) -> Result<(bool, Vec<u8>), Fail> {
    let bytes = Mutex::new(Vec::from_slice(alloc, b"{0}\n\n1}\n\n")?);
    let is_added = is_added(alloc, &bytes, until_failure, b"{1}\n{2}\n\n");
    let lines = lines_of(alloc, &bytes)?;
    Ok((is_added, lines))
}

/// A recovery makes a sync, a cut and its sync, a write and its sync; a batch two writes with a sync each. The last write of a batch is that
/// of one byte, of which a half is none.
const CALLS: &[(u32, bool, &[u8])] = &[
    (0, false, b"{0}\n"),
    (4, false, b"{0}\n"),
    (5, false, b"{0}\n"),
    (6, false, b"{0}\n"),
    (7, false, b"{0}\n"),
    (8, false, b"{0}\n{1}\n{2}\n"),
    (9, true, b"{0}\n{1}\n{2}\n"),
];

fn calls() -> &'static [(u32, bool, &'static [u8])] {
    CALLS
}

#[test]
fn that_fail(rt: HostRuntime) -> Result<(), Fail> {
    for (calls, is_added, lines) in calls() {
        let (added, found) = appended(rt.alloc(), *calls)?;
        assert_eq!(rt; added, *is_added, "{calls}");
        assert_eq!(rt; found.as_slice(), *lines, "{calls}");
    }
    Ok(())
}

/// What was read is given out once, and behind a call that failed nothing is asked of the file.
#[test]
fn that_are_read(rt: HostRuntime) -> Result<(), Fail> {
    let alloc = rt.alloc();
    let bytes = Mutex::new(Vec::from_slice(alloc, b"abc")?);
    let file = Kept {
        bytes: &bytes,
        until_failure: 1,
    };
    let mut device = FileDevice::new(alloc, file, Vec::from_slice(alloc, b"abc")?);
    assert_eq!(rt; device.read(alloc).ok().as_deref(), Some(b"abc".as_slice()));
    assert!(rt; device.read(alloc).is_err());
    assert_eq!(rt; device.sync(), Ok(()));
    assert_eq!(rt; device.sync(), Err(DeviceError::Failed));
    assert_eq!(rt; device.truncate(0), Err(DeviceError::Failed));
    let kept = bytes.try_lock();
    assert_eq!(rt; kept.map(|it| it.len()), Some(3));
    Ok(())
}

/// The first line of a journal.
#[test]
fn that_begin_with_a_header(rt: HostRuntime) -> Result<(), Fail> {
    let line = header(rt.alloc(), "00ff", 64)?;
    assert_eq!(rt;
        line.as_slice(),
        b"{\"journal\":{\"capacity\":64,\"format\":1,\"image\":\"00ff\"}}\n".as_slice()
    );
    Ok(())
}
