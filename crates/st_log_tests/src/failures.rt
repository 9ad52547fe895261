//! Each call of a device that fails, and batches that are none.
use crate::logs::log_on;
use st_log::device::DeviceError;
use st_log::lines::is_batch;
use std::alloc::Global;
use std::test::*;

/// Lines that are there.
const LINES: &[u8] = b"{0}\n";

/// A batch, and the lines with it.
const BATCH: &[u8] = b"{1}\n\n";

const WITH_BATCH: &[u8] = b"{0}\n{1}\n";

/// How many calls a recovery makes: a sync, a read, a cut and its sync, a write and its sync.
const RECOVERY: u32 = 6;

/// How many calls of an append are made before one fails, what it answers, and the lines that are recovered then. It writes twice, each
/// time with a sync. The brace is there once the second write was made.
const APPENDED: &[(u32, Result<(), DeviceError>, &[u8])] = &[
    (0, Err(DeviceError::Failed), LINES),
    (1, Err(DeviceError::Failed), LINES),
    (2, Err(DeviceError::Failed), LINES),
    (3, Err(DeviceError::Failed), WITH_BATCH),
    (4, Ok(()), WITH_BATCH),
];

fn appended() -> &'static [(u32, Result<(), DeviceError>, &'static [u8])] {
    APPENDED
}

/// What an append answers, and the lines that are recovered behind it.
fn append(alloc: Global, until_failure: u32) -> Result<(Result<(), DeviceError>, Vec<u8>), Fail> {
    let mut log = log_on(alloc, LINES, until_failure)?;
    log.recover(alloc)?;
    if !is_batch(BATCH) {
        return Ok((Ok(()), Vec::new(alloc)));
    }
    let answer = log.append(BATCH);
    if answer.is_ok() {
        // The call that is to fail is still to come.
        let _ = log.recover(alloc);
    }
    Ok((answer, log.recover(alloc)?))
}

#[test]
fn of_an_append(rt: HostRuntime) -> Result<(), Fail> {
    for (calls, answer, lines) in appended() {
        let (answered, recovered) = append(rt.alloc(), RECOVERY.saturating_add(*calls))?;
        assert_eq!(rt; answered, *answer);
        assert_eq!(rt; recovered.as_slice(), *lines);
    }
    Ok(())
}

/// Whether the first recovery succeeds, and the lines of the next one.
fn recover(alloc: Global, until_failure: u32) -> Result<(Result<(), DeviceError>, Vec<u8>), Fail> {
    let mut log = log_on(alloc, b"{0}\n\n1}\n", until_failure)?;
    let first = match log.recover(alloc) {
        Ok(_) => Ok(()),
        Err(error) => Err(error),
    };
    if first.is_ok() {
        let _ = log.recover(alloc);
    }
    Ok((first, log.recover(alloc)?))
}

#[test]
fn of_a_recovery(rt: HostRuntime) -> Result<(), Fail> {
    for calls in 0..RECOVERY + 1 {
        let (first, lines) = recover(rt.alloc(), calls)?;
        assert_eq!(rt; first.is_ok(), calls == RECOVERY);
        assert_eq!(rt; lines.as_slice(), LINES);
    }
    Ok(())
}

/// Texts, and whether they are batches: whole lines, at least one, and an empty line.
const BATCHES: &[(&[u8], bool)] = &[
    (b"{\n\n", true),
    (b"{1}\n\n", true),
    (b"{1}\n{2}\n\n", true),
    (b"{{\x00\xff\n\n", true),
    (b"", false),
    (b"\n", false),
    (b"{", false),
    (b"{\n", false),
    (b"{1}\n", false),
    (b"1}\n\n", false),
    (b"\n{\n\n", false),
    (b"{\n\n\n", false),
    (b"{\n\n{\n\n", false),
    (b"{\n{", false),
    (b"{\nx\n", false),
];

fn batches() -> &'static [(&'static [u8], bool)] {
    BATCHES
}

#[test]
fn batches_are_known(rt: HostRuntime) {
    for (text, wanted) in batches() {
        assert_eq!(rt; is_batch(text), *wanted);
    }
}
