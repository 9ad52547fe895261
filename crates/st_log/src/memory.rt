//! A device in memory. Each call is done at once, so a crash leaves what is there.
ghost use Rattle.std.specs.Prelude.{◌≡◌, ◌≤◌, ◌<◌, ◌+◌, ◌^◌, ◌⊎◌, [], ◌∷◌, ◌++◌, length, drop, take, OnOk, OnErr};
ghost use Rattle.std.proofs.Common.{inl};
ghost use Rattle.st_log.specs.Device.{Overwritten};
ghost use Rattle.st_log.specs.Past.{HadBeen, only_bytes};

use crate::device::{Device, DeviceError};
use std::alloc::{AllocError, Global};

/// Bytes in memory, and all contents that they have had. A call fails only if memory runs out.
#[derive(Drop)]
pub struct Memory {
    alloc: Global,
    bytes: Vec<u8>,
    past: Vec<Vec<u8>>,
    last_error: Option<DeviceError>,
}

impl Memory {
    ghost use Rattle.st_log.specs.Memory.{memory_bytes};

    /// A device with these bytes, all of them on the disk.
    pub fn new(alloc: Global, bytes: Vec<u8>) -> Memory
        ensures { memory_bytes result ≡ bytes.items }
    {
        Memory {
            alloc,
            bytes,
            past: Vec::new(alloc),
            last_error: None,
        }
    }

    /// The bytes.
    pub fn bytes(&self) -> &[u8]
        ensures { result.now ≡ memory_bytes self.now }
    {
        &self.bytes
    }
}

/// Puts other bytes in the place of those that are there, which are kept.
fn replace(
    alloc: Global,
    bytes: &mut Vec<u8>,
    past: &mut Vec<Vec<u8>>,
    next: Vec<u8>,
) -> Result<(), AllocError>
    ensures ok { OnOk result (bytes.new.items ≡ next.items) }
    ensures err { OnErr result (bytes.new.items ≡ bytes.old.items) }
    ensures past { OnOk result ((v : _) × (v.items ≡ bytes.old.items) × (past.new.items ≡ past.old.items ++ v ∷ [])) }
    ensures past_err { OnErr result (past.new.items ≡ past.old.items) }
{
    past.push(bytes.to_vec(alloc)?)?;
    *bytes = next;
    Ok(())
}

/// Writes bytes over those from `at` on.
fn overwrite(
    alloc: Global,
    bytes: &mut Vec<u8>,
    past: &mut Vec<Vec<u8>>,
    at: usize,
    written: &[u8],
) -> Result<(), AllocError>
    requires { at ≤ length bytes.old.items }
    ensures ok { OnOk result (Overwritten bytes.old.items at written.now bytes.new.items) }
    ensures fits { OnOk result (at + length written.now < 2 ^ 63) }
    ensures err { OnErr result (bytes.new.items ≡ bytes.old.items) }
    ensures past { OnOk result ((v : _) × (v.items ≡ bytes.old.items) × (past.new.items ≡ past.old.items ++ v ∷ [])) }
    ensures past_err { OnErr result (past.new.items ≡ past.old.items) }
{
    let mut next = bytes[..at].to_vec(alloc)?;
    next.extend_from_slice(written)?;
    if written.len() < bytes.len() - at {
        next.extend_from_slice(&bytes[at + written.len()..])?;
    }
    replace(alloc, bytes, past, next)
}

/// Keeps the first `len` bytes.
fn cut(
    alloc: Global,
    bytes: &mut Vec<u8>,
    past: &mut Vec<Vec<u8>>,
    len: usize,
) -> Result<(), AllocError>
    requires { len ≤ length bytes.old.items }
    ensures ok { OnOk result (bytes.new.items ≡ take len bytes.old.items) }
    ensures err { OnErr result (bytes.new.items ≡ bytes.old.items) }
    ensures past { OnOk result ((v : _) × (v.items ≡ bytes.old.items) × (past.new.items ≡ past.old.items ++ v ∷ [])) }
    ensures past_err { OnErr result (past.new.items ≡ past.old.items) }
{
    let next = bytes[..len].to_vec(alloc)?;
    replace(alloc, bytes, past, next)
}

impl Device for Memory {
    ghost contents = { λ m. m.bytes.items };

    ghost may_leave = { λ m c. c ≡ m.bytes.items };

    ghost moment = { λ m. length m.past.items };

    ghost left_since = { λ m t c. (c ≡ m.bytes.items) ⊎ HadBeen (drop t m.past.items) c };

    ghost last_error = { λ m. m.last_error };

    ghost counts_now = { λ m t c le now. inl now };

    ghost only_now = { λ m c left. only_bytes m.past.items m.bytes.items c left };

    fn read(&mut self, alloc: Global) -> Result<Vec<u8>, DeviceError> {
        match self.bytes.to_vec(alloc) {
            Ok(bytes) => {
                self.last_error = None;
                Ok(bytes)
            }
            Err(_) => {
                self.last_error = Some(DeviceError::NoMemory);
                Err(DeviceError::NoMemory)
            }
        }
    }

    fn write_at(&mut self, at: usize, bytes: &[u8]) -> Result<(), DeviceError> {
        match overwrite(self.alloc, &mut self.bytes, &mut self.past, at, bytes) {
            Ok(()) => {
                self.last_error = None;
                Ok(())
            }
            Err(_) => {
                self.last_error = Some(DeviceError::NoMemory);
                Err(DeviceError::NoMemory)
            }
        }
    }

    fn truncate(&mut self, len: usize) -> Result<(), DeviceError> {
        match cut(self.alloc, &mut self.bytes, &mut self.past, len) {
            Ok(()) => {
                self.last_error = None;
                Ok(())
            }
            Err(_) => {
                self.last_error = Some(DeviceError::NoMemory);
                Err(DeviceError::NoMemory)
            }
        }
    }

    fn sync(&mut self) -> Result<(), DeviceError> {
        self.last_error = None;
        Ok(())
    }
}
