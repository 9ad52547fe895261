//! Logs on devices in memory.
ghost use Rattle.std.specs.Prelude.{All, IsTrue, Vec, ℕ};
ghost use Rattle.std.specs.declared.alloc.Global.{Global};
ghost use Rattle.st_log.specs.Lines.{IsBatch};

use crate::noted::{Noted, Step};
use st_log::lines::is_batch;
use st_log::logs::Log;
use st_log::memory::Memory;
use std::alloc::{AllocError, Global};
use std::test::Fail;

/// No call fails.
pub const NO_FAILURE: u32 = u32::MAX;

/// A log on bytes, one of whose calls fails after so many.
pub fn log_on(
    alloc: Global,
    bytes: &[u8],
    until_failure: u32,
) -> Result<Log<Noted<Memory>>, AllocError> {
    let memory = Memory::new(alloc, bytes.to_vec(alloc)?);
    Ok(Log::new(Noted::new(alloc, memory, until_failure)))
}

/// Texts of their own.
pub fn texts(alloc: Global, texts: &[&[u8]]) -> Result<Vec<Vec<u8>>, AllocError> {
    let mut owned = Vec::new(alloc);
    for text in texts {
        owned.push(text.to_vec(alloc)?)?;
    }
    Ok(owned)
}

/// Whether all texts are batches.
pub fn are_batches(batches: &[Vec<u8>]) -> bool
    ensures { IsTrue result → All (λ (b : Vec ℕ Global). IsBatch b.items) batches.now }
{
    for batch in batches {
        if !is_batch(batch) {
            return false;
        }
    }
    true
}

/// The steps that a log takes for batches behind lines that are on the disk.
pub fn appending(alloc: Global, lines: &[u8], batches: &[Vec<u8>]) -> Result<Vec<Step>, Fail> {
    let mut log = log_on(alloc, lines, NO_FAILURE)?;
    log.recover(alloc)?;
    let recovered = log.device.steps.len();
    if are_batches(batches) {
        log.append_all(batches)?;
    }
    let device = log.device;
    let mut steps = Vec::new(alloc);
    for step in device.steps.into_iter().skip(recovered) {
        steps.push(step)?;
    }
    Ok(steps)
}
