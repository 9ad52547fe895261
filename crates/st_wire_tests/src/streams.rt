//! What is read from and written to: bytes in memory, and devices that fail.
use st_wire::streams::{
    Input, MemoryInput, MemoryOutput, Output, Reader, WriteFailed, Writer, write_all,
};
use std::alloc::Global;
use std::io::{self, BufWriter, ErrorKind, Read, Write};
use std::test::*;

/// Whether a read of eight bytes at most gives just these.
fn gives<I: Input>(input: &mut I, wanted: &[u8]) -> bool {
    let mut buffer = [0; 8];
    match input.read(&mut buffer) {
        Ok(count) => count == wanted.len() && buffer.starts_with(wanted),
        Err(_) => false,
    }
}

fn fails<I: Input>(input: &mut I) -> bool {
    let mut buffer = [0; 8];
    input.read(&mut buffer).is_err()
}

fn written<O: Output>(output: &mut O, bytes: &[u8]) -> Result<usize, WriteFailed> {
    output.write(bytes)
}

fn all_written<O: Output>(output: &mut O, bytes: &[u8]) -> Result<(), WriteFailed> {
    write_all(output, bytes)
}

/// Whether three bytes at most were moved, or none where a device failed.
fn moves_three<I: Input, O: Output>(input: &mut I, output: &mut O) -> bool {
    let mut buffer = [0; 3];
    match input.read(&mut buffer) {
        Ok(count) => write_all(output, &buffer[..count]).is_ok(),
        Err(_) => false,
    }
}

#[test]
fn streams_in_memory(rt: HostRuntime) -> Result<(), Fail> {
    let mut input = MemoryInput::new(Vec::from_slice(rt.alloc(), b"abcde")?);
    let mut output = MemoryOutput::new(rt.alloc());
    for _ in 0..3 {
        assert!(rt; moves_three(&mut input, &mut output));
    }
    assert!(rt; output.as_slice() == b"abcde".as_slice());
    assert!(rt; gives(&mut input, b""));
    assert!(rt; written(&mut output, b"") == Err(WriteFailed));
    assert!(rt; all_written(&mut output, b"") == Ok(()));
    Ok(())
}

/// A device that gives one byte, is interrupted, gives three, fails, and gives what is left.
#[derive(Drop)]
struct Giving {
    left: &'static [u8],
    turn: u32,
}

impl Read for Giving {
    fn read(&mut self, buffer: &mut [u8]) -> io::Result<usize> {
        self.turn = self.turn.saturating_add(1);
        let most = match self.turn {
            1 => 1,
            2 => return Err(io::Error::from(ErrorKind::Interrupted)),
            3 => 3,
            4 => return Err(io::Error::from(ErrorKind::BrokenPipe)),
            _ => buffer.len(),
        };
        let end = most.min(buffer.len());
        self.left.read(&mut buffer[..end])
    }
}

/// A device that takes one byte, is interrupted, takes what it gets, takes nothing, and fails.
#[derive(Drop)]
struct Taking {
    taken: Vec<u8>,
    turn: u32,
}

impl Write for Taking {
    fn write(&mut self, bytes: &[u8]) -> io::Result<usize> {
        self.turn = self.turn.saturating_add(1);
        let most = match self.turn {
            1 => 1,
            2 => return Err(io::Error::from(ErrorKind::Interrupted)),
            3 => bytes.len(),
            4 => 0,
            _ => return Err(io::Error::from(ErrorKind::BrokenPipe)),
        };
        let end = most.min(bytes.len());
        self.taken.write(&bytes[..end])
    }

    fn flush(&mut self) -> io::Result<()> {
        if self.turn > 4 {
            return Err(io::Error::from(ErrorKind::BrokenPipe));
        }
        Ok(())
    }
}

#[test]
fn reads_a_device(rt: HostRuntime) -> Result<(), Fail> {
    let mut input = Reader::new(Giving {
        left: b"abcdef",
        turn: 0,
    });
    assert!(rt; gives(&mut input, b"a"));
    assert!(rt; gives(&mut input, b"bcd"));
    assert!(rt; fails(&mut input));
    assert!(rt; gives(&mut input, b"ef"));
    assert!(rt; gives(&mut input, b""));
    Ok(())
}

#[test]
fn writes_to_a_device(rt: HostRuntime) -> Result<(), Fail> {
    let mut device = Taking {
        taken: Vec::new(rt.alloc()),
        turn: 0,
    };
    let mut output = Writer::new(&mut device);
    assert!(rt; all_written(&mut output, b"abc") == Ok(()));
    assert!(rt; written(&mut output, b"d") == Err(WriteFailed));
    assert!(rt; all_written(&mut output, b"d") == Err(WriteFailed));
    assert!(rt; device.taken.as_slice() == b"abc".as_slice());
    Ok(())
}

/// Whether a buffer before a device takes bytes, and whether the device has them in the end.
fn buffered(alloc: Global, device: &mut Taking, bytes: &[u8]) -> Result<(bool, bool), Fail> {
    let mut output = Writer::new(BufWriter::new(alloc, device)?);
    let is_taken = write_all(&mut output, bytes).is_ok();
    Ok((is_taken, output.finish().is_ok()))
}

#[test]
fn finishes_a_buffered_device(rt: HostRuntime) -> Result<(), Fail> {
    let mut device = Taking {
        taken: Vec::new(rt.alloc()),
        turn: 0,
    };
    assert!(rt; buffered(rt.alloc(), &mut device, b"abc")? == (true, true));
    assert!(rt; buffered(rt.alloc(), &mut device, b"d")? == (true, false));
    assert!(rt; device.taken.as_slice() == b"abc".as_slice());
    Ok(())
}

/// A device that takes all bytes and counts its flushes. The first flush may fail.
#[derive(Drop)]
struct Flushed {
    first: Option<ErrorKind>,
    flushes: u32,
    taken: usize,
}

impl Flushed {
    /// One whose first flush ends so.
    fn new(first: Option<ErrorKind>) -> Flushed {
        Flushed {
            first,
            flushes: 0,
            taken: 0,
        }
    }
}

impl Write for Flushed {
    fn write(&mut self, bytes: &[u8]) -> io::Result<usize> {
        self.taken = self.taken.saturating_add(bytes.len());
        Ok(bytes.len())
    }

    fn flush(&mut self) -> io::Result<()> {
        self.flushes = self.flushes.saturating_add(1);
        match self.first.take() {
            Some(kind) => Err(io::Error::from(kind)),
            None => Ok(()),
        }
    }
}

/// Writes three bytes, and flushes them if that is asked for.
fn three_bytes<O: Output>(output: &mut O, is_flushed: bool) -> Result<(), WriteFailed> {
    write_all(output, b"abc")?;
    if is_flushed {
        return output.flush();
    }
    Ok(())
}

/// The same through a buffer before a device, as the program has it.
fn three_buffered(
    alloc: Global,
    device: &mut Flushed,
    is_flushed: bool,
) -> Result<Result<(), WriteFailed>, Fail> {
    let mut output = Writer::new(BufWriter::new(alloc, device)?);
    Ok(three_bytes(&mut output, is_flushed))
}

/// How the first flush of a device ends, what that of the output above it answers, and how often the device is flushed then.
const FLUSHES: &[(Option<ErrorKind>, Result<(), WriteFailed>, u32)] = &[
    (None, Ok(()), 1),
    (Some(ErrorKind::Interrupted), Ok(()), 2),
    (Some(ErrorKind::BrokenPipe), Err(WriteFailed), 1),
    (Some(ErrorKind::WouldBlock), Err(WriteFailed), 1),
];

/// The table behind a function without a contract, so that the proof of a test carries none of it.
fn flushes() -> &'static [(Option<ErrorKind>, Result<(), WriteFailed>, u32)] {
    FLUSHES
}

#[test]
fn a_flush_reaches_the_device(rt: HostRuntime) -> Result<(), Fail> {
    for (first, wanted, count) in flushes() {
        let mut device = Flushed::new(*first);
        assert!(rt; three_bytes(&mut Writer::new(&mut device), true) == *wanted);
        assert!(rt; device.flushes == *count);
        let mut device = Flushed::new(*first);
        assert!(rt; three_buffered(rt.alloc(), &mut device, true)? == *wanted);
        assert!(rt; device.flushes == *count && device.taken == 3);
    }
    Ok(())
}

#[test]
fn a_write_does_not_flush(rt: HostRuntime) -> Result<(), Fail> {
    let mut device = Flushed::new(None);
    assert!(rt; three_bytes(&mut Writer::new(&mut device), false) == Ok(()));
    assert!(rt; three_buffered(rt.alloc(), &mut device, false)? == Ok(()));
    assert!(rt; device.flushes == 0);
    Ok(())
}
