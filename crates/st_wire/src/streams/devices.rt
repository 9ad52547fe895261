//! Devices over std's readers and writers.
ghost use Rattle.std.specs.Prelude.{◌≡◌, ◌≤◌, IfOk};
ghost use Rattle.std.specs.Io.{ReadsAtMost, WritesAtMost};
ghost use Rattle.std.specs.Io.KnownBytes.{Keeps, ReadConsumes, WriteAppends};
ghost use Rattle.std.specs.Io.Buffered.{writer_contents};

use super::{Input, Output, ReadFailed, WriteFailed};
use std::io::{self, BufWriter, ErrorKind};

/// Reads once. A read that a signal interrupts is tried again.
fn read_from<R: io::Read>(reader: &mut R, buffer: &mut [u8]) -> Result<usize, ReadFailed>
    ensures fits { ReadsAtMost result buffer.new }
    ensures gives { ReadConsumes (R.remaining reader.old) (R.remaining reader.new) result buffer.new }
{
    for _ in 0..u64::MAX {
        match reader.read(buffer) {
            Ok(count) => return Ok(count),
            Err(error) => {
                if error.kind() != ErrorKind::Interrupted {
                    return Err(ReadFailed);
                }
            }
        }
    }
    Err(ReadFailed)
}

/// Writes once. A write that a signal interrupts is tried again. It fails if the writer takes none of the bytes.
fn write_to<W: io::Write>(writer: &mut W, bytes: &[u8]) -> Result<usize, WriteFailed>
    ensures some { IfOk result (λ n. 1 ≤ n) }
    ensures within { WritesAtMost result bytes.now }
    ensures writes { WriteAppends (W.contents writer.old) (W.contents writer.new) result bytes.now }
{
    for _ in 0..u64::MAX {
        match writer.write(bytes) {
            Ok(0) => return Err(WriteFailed),
            Ok(taken) => return Ok(taken),
            Err(error) => {
                if error.kind() != ErrorKind::Interrupted {
                    return Err(WriteFailed);
                }
            }
        }
    }
    Err(WriteFailed)
}

/// Flushes once. A flush that a signal interrupts is tried again.
fn flush_of<W: io::Write>(writer: &mut W) -> Result<(), WriteFailed>
    ensures { Keeps (W.contents writer.old) (W.contents writer.new) }
{
    for _ in 0..u64::MAX {
        match writer.flush() {
            Ok(()) => return Ok(()),
            Err(error) => {
                if error.kind() != ErrorKind::Interrupted {
                    return Err(WriteFailed);
                }
            }
        }
    }
    Err(WriteFailed)
}

/// A device over a reader of std, such as standard input, a file or a socket. What it has left to give is known if std knows it.
///
/// A read that a signal interrupts is not a failure and not counted apart: it is tried again within the same read, as std's own
/// `read_to_end` does. Only a read that is interrupted 2^64 - 1 times is a failure. Every other error is a failure.
#[derive(Drop)]
pub struct Reader<R> {
    inner: R,
    failures: u64,
    reads: u64,
}

impl<R: io::Read> Reader<R> {
    /// A device from which nothing has been read.
    pub fn new(inner: R) -> Reader<R>
        ensures inner { result.inner ≡ inner }
        ensures unfailed { result.failures ≡ 0 }
        ensures unread { result.reads ≡ 0 }
    {
        Reader {
            inner,
            failures: 0,
            reads: 0,
        }
    }
}

impl<R: io::Read> Input for Reader<R> {
    ghost remaining = { λ r. R.remaining r.inner };

    ghost failures = { λ r. r.failures };

    ghost reads = { λ r. r.reads };

    fn read(&mut self, buffer: &mut [u8]) -> Result<usize, ReadFailed> {
        self.reads = self.reads.wrapping_add(1);
        let result = read_from(&mut self.inner, buffer);
        if result.is_err() {
            self.failures = self.failures.wrapping_add(1);
        }
        result
    }
}

/// A device over a writer of std, such as standard output, a file or a socket. What has been written is known if std knows it.
///
/// A write that a signal interrupts is not a failure: it is tried again. Only a write that is interrupted 2^64 - 1 times is a
/// failure. Every other error is a failure, and so is a write that takes no byte. A buffered writer fails when its buffer cannot be
/// written out. That may be after the write that filled the buffer: in a later write, in a flush or in [`Writer::finish`].
#[derive(Drop)]
pub struct Writer<W> {
    inner: W,
    failures: u64,
    flushes: u64,
}

impl<W: io::Write> Writer<W> {
    /// A device to which nothing has been written.
    pub fn new(inner: W) -> Writer<W>
        ensures inner { result.inner ≡ inner }
        ensures unfailed { result.failures ≡ 0 }
        ensures unflushed { result.flushes ≡ 0 }
    {
        Writer {
            inner,
            failures: 0,
            flushes: 0,
        }
    }
}

impl<W: io::Write + Drop> Writer<BufWriter<W>> {
    /// Writes out what the buffer holds, and answers the inner writer, which has then taken all that was written to the device.
    pub fn finish(self) -> Result<W, WriteFailed>
        ensures { IfOk result (λ w. Keeps (writer_contents W.contents self.inner) (W.contents w)) }
    {
        self.inner.into_inner().map_err(|_| WriteFailed)
    }
}

impl<W: io::Write> Output for Writer<W> {
    ghost contents = { λ w. W.contents w.inner };

    ghost failures = { λ w. w.failures };

    ghost flushes = { λ w. w.flushes };

    fn write(&mut self, bytes: &[u8]) -> Result<usize, WriteFailed> {
        let result = write_to(&mut self.inner, bytes);
        if result.is_err() {
            self.failures = self.failures.wrapping_add(1);
        }
        result
    }

    fn flush(&mut self) -> Result<(), WriteFailed> {
        self.flushes = self.flushes.wrapping_add(1);
        let result = flush_of(&mut self.inner);
        if result.is_err() {
            self.failures = self.failures.wrapping_add(1);
        }
        result
    }
}
