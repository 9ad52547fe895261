//! Devices from which bytes are read and to which they are written.
//!
//! A device may fail. It counts its failures, so that a caller can show that it answered each one. It counts reads, so that a
//! caller can show that it gives up after many, and flushes. [`Reader`] and [`Writer`] are devices over std's readers and writers,
//! such as standard input and output, files and sockets. [`MemoryInput`] and [`MemoryOutput`] are bytes in memory.
ghost use Rattle.std.specs.Prelude.{◌≡◌, ◌≤◌, ◌<◌, ℕ, List, Option, length, take, IfOk, OnOk, OnErr};
ghost use Rattle.std.specs.Io.{ReadsAtMost, WritesAtMost};
ghost use Rattle.std.specs.Io.KnownBytes.{Appends, Keeps, ReadConsumes, WriteAppends};
ghost use Rattle.st_wire.specs.Streams.{one_more};

mod devices;
mod memory;

pub use devices::{Reader, Writer};
pub use memory::{MemoryInput, MemoryOutput};

/// A read failed.
#[derive(Clone, Copy, PartialEq, Eq, Debug)]
pub struct ReadFailed;

/// A write failed.
#[derive(Clone, Copy, PartialEq, Eq, Debug)]
pub struct WriteFailed;

/// A source of bytes.
pub trait Input {
    /// The bytes that it has left to give, if they are known.
    ghost remaining: { Self → Option (List ℕ) };

    /// The number of failures.
    ghost failures: { Self → ℕ };

    /// The number of reads, including those that failed.
    ghost reads: { Self → ℕ };

    /// Copies some of the next bytes to the front of the buffer, and answers how many. It answers 0 only at the end, or if the
    /// buffer is empty. A failure consumes no byte.
    fn read(&mut self, buffer: &mut [u8]) -> Result<usize, ReadFailed>
        ensures fits { ReadsAtMost result buffer.new }
        ensures gives { ReadConsumes (remaining self.old) (remaining self.new) result buffer.new }
        ensures unfailed { OnOk result (failures self.new ≡ failures self.old) }
        ensures failed { OnErr result (failures self.new ≡ one_more (failures self.old)) }
        ensures counted { reads self.new ≡ one_more (reads self.old) };
}

/// A destination of bytes.
pub trait Output {
    /// The bytes that have been written, if they are known.
    ghost contents: { Self → Option (List ℕ) };

    /// The number of failures.
    ghost failures: { Self → ℕ };

    /// The number of flushes, including those that failed.
    ghost flushes: { Self → ℕ };

    /// Writes a prefix of the bytes, at least one byte, and answers how many. An empty write is a failure. A failure writes no
    /// byte.
    fn write(&mut self, bytes: &[u8]) -> Result<usize, WriteFailed>
        ensures some { IfOk result (λ n. 1 ≤ n) }
        ensures within { WritesAtMost result bytes.now }
        ensures writes { WriteAppends (contents self.old) (contents self.new) result bytes.now }
        ensures unfailed { OnOk result (failures self.new ≡ failures self.old) }
        ensures failed { OnErr result (failures self.new ≡ one_more (failures self.old)) }
        ensures unflushed { flushes self.new ≡ flushes self.old };

    /// Passes on the bytes that are held back, so that they can be read at the other end.
    fn flush(&mut self) -> Result<(), WriteFailed>
        ensures keeps { Keeps (contents self.old) (contents self.new) }
        ensures unfailed { OnOk result (failures self.new ≡ failures self.old) }
        ensures failed { OnErr result (failures self.new ≡ one_more (failures self.old)) }
        ensures counted { flushes self.new ≡ one_more (flushes self.old) };
}

/// Writes all bytes. If it fails, a shorter prefix of them is written, and one failure is counted.
pub fn write_all<O: Output>(output: &mut O, bytes: &[u8]) -> Result<(), WriteFailed>
    ensures all { OnOk result (Appends (O.contents output.old) (O.contents output.new) bytes.now) }
    ensures unfailed { OnOk result (O.failures output.new ≡ O.failures output.old) }
    ensures front { OnErr result ((n : ℕ) × (n < length bytes.now)
        × Appends (O.contents output.old) (O.contents output.new) (take n bytes.now)) }
    ensures failed { OnErr result (O.failures output.new ≡ one_more (O.failures output.old)) }
    ensures unflushed { O.flushes output.new ≡ O.flushes output.old }
{
    let mut done = 0;
    while done < bytes.len() {
        done += output.write(&bytes[done..])?;
    }
    Ok(())
}
