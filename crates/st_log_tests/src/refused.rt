//! Calls of a log for which memory is refused: each is asked, and where it finds no memory it is seen that the lines stand as they did,
//! and it is asked again. Memory is refused where a test runs with an allocation that fails, as `tools/refused-growth` has it for each
//! in turn.
use st_log::device::DeviceError;
use st_log::lines::is_batch;
use st_log::logs::Log;
use st_log::memory::Memory;
use std::alloc::{AllocError, Global};
use std::test::*;

const LINES: &[u8] = b"{0}\n";

const TORN: &[u8] = b"{0}\n\n1}\n";

const MENDED: &[u8] = b"{0}\n\n";

const BATCH: &[u8] = b"{1}\n\n";

const WITH_BATCH: &[u8] = b"{0}\n{1}\n";

fn log_on(alloc: Global, bytes: &[u8]) -> Result<Log<Memory>, AllocError> {
    Ok(Log::new(Memory::new(alloc, bytes.to_vec(alloc)?)))
}

fn recover(alloc: Global, log: &mut Log<Memory>) -> Result<Vec<u8>, DeviceError> {
    log.recover(alloc)
}

/// What is recovered, asked for again where there was no memory.
fn recover_again(alloc: Global, log: &mut Log<Memory>) -> Result<Vec<u8>, DeviceError> {
    match recover(alloc, log) {
        Err(DeviceError::NoMemory) => recover(alloc, log),
        first => first,
    }
}

/// What an append behind a recovery answers.
fn append(alloc: Global, log: &mut Log<Memory>) -> Result<(), DeviceError> {
    log.recover(alloc)?;
    if is_batch(BATCH) {
        log.append(BATCH)?;
    }
    Ok(())
}

#[test]
fn a_recovery(rt: HostRuntime) -> Result<(), Fail> {
    let mut log = log_on(rt.alloc(), TORN)?;
    let lines = recover_again(rt.alloc(), &mut log)?;
    assert_eq!(rt; lines.as_slice(), LINES);
    assert_eq!(rt; log.device.bytes(), MENDED);
    Ok(())
}

#[test]
fn an_append(rt: HostRuntime) -> Result<(), Fail> {
    let mut log = log_on(rt.alloc(), TORN)?;
    if append(rt.alloc(), &mut log) == Err(DeviceError::NoMemory) {
        assert_eq!(rt; recover(rt.alloc(), &mut log)?.as_slice(), LINES);
        append(rt.alloc(), &mut log)?;
    }
    assert_eq!(rt; recover_again(rt.alloc(), &mut log)?.as_slice(), WITH_BATCH);
    Ok(())
}
