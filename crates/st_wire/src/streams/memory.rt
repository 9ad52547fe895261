//! Devices in memory.
ghost use Rattle.std.specs.Prelude.{◌≡◌, ◌≤◌, [], Some, drop, vec_len};

use super::{Input, Output, ReadFailed, WriteFailed};
use std::alloc::Global;

/// An input of bytes in memory. It never fails. What it has left to give is always known: the bytes from its position on.
#[derive(Drop)]
pub struct MemoryInput {
    bytes: Vec<u8>,
    place: usize,
    reads: u64,
    ghost in_bytes: { place ≤ vec_len bytes },
}

impl MemoryInput {
    ghost use Rattle.st_wire.specs.declared.streams.memory.MemoryInput.{MemoryInput};

    pub fn new(bytes: Vec<u8>) -> MemoryInput
        ensures whole { result.bytes ≡ bytes }
        ensures start { result.place ≡ 0 }
        ensures unread { result.reads ≡ 0 }
    {
        MemoryInput {
            bytes,
            place: 0,
            reads: 0,
        }
    }
}

impl Input for MemoryInput {
    ghost remaining = { λ m. Some (drop m.place m.bytes.items) };

    ghost failures = { λ _. 0 };

    ghost reads = { λ m. m.reads };

    fn read(&mut self, buffer: &mut [u8]) -> Result<usize, ReadFailed> {
        self.reads = self.reads.wrapping_add(1);
        let count = (self.bytes.len() - self.place).min(buffer.len());
        let end = self.place + count;
        buffer[..count].copy_from_slice(&self.bytes[self.place..end]);
        self.place = end;
        Ok(count)
    }
}

/// An output to bytes in memory. What has been written is always known. It fails if memory runs out.
#[derive(Drop)]
pub struct MemoryOutput {
    bytes: Vec<u8>,
    failures: u64,
    flushes: u64,
}

impl MemoryOutput {
    pub fn new(alloc: Global) -> MemoryOutput
        ensures empty { result.bytes.items ≡ [] }
        ensures unfailed { result.failures ≡ 0 }
        ensures unflushed { result.flushes ≡ 0 }
    {
        MemoryOutput {
            bytes: Vec::new(alloc),
            failures: 0,
            flushes: 0,
        }
    }

    /// What has been written.
    pub fn as_slice(&self) -> &[u8]
        ensures { result.now ≡ self.now.bytes.items }
    {
        self.bytes.as_slice()
    }
}

impl Output for MemoryOutput {
    ghost contents = { λ m. Some m.bytes.items };

    ghost failures = { λ m. m.failures };

    ghost flushes = { λ m. m.flushes };

    fn write(&mut self, bytes: &[u8]) -> Result<usize, WriteFailed> {
        if !bytes.is_empty() && self.bytes.extend_from_slice(bytes).is_ok() {
            return Ok(bytes.len());
        }
        self.failures = self.failures.wrapping_add(1);
        Err(WriteFailed)
    }

    /// Nothing is held back, so this never fails.
    fn flush(&mut self) -> Result<(), WriteFailed> {
        self.flushes = self.flushes.wrapping_add(1);
        Ok(())
    }
}
