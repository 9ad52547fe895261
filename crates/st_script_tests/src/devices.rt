//! Scripts over devices that give and take in pieces, are interrupted, and fail.
ghost use Rattle.std.specs.Prelude.{Some};

use st_classes::refusals::Refusal;
use st_image::settings::Settings;
use st_script::images::Image;
use st_script::scripts::script_on;
use st_script::settings::ScriptSettings;
use st_wire::streams::{Input, MemoryInput, MemoryOutput, Output, Reader, WriteFailed, Writer};
use std::alloc::{AllocError, Global};
use std::io::{self, ErrorKind, Read, Write};
use std::test::*;

const RUN: &[u8] = b"{\"cmd\":\"run\"}\n";

const TWO_RUNS: &[u8] = b"{\"cmd\":\"run\"}\n{\"cmd\":\"run\"}\n";

const RAN: &str = "{\"ok\":{\"quanta\":0,\"steps\":0}}\n";

/// How a script ended whose image is let go. It may be of any type here, since the proof of a function that lets an image go pays for all
/// its parts.
pub(crate) fn end_of<T: Drop>(done: (T, Result<u64, Refusal>)) -> Result<u64, Refusal> {
    let (_image, end) = done;
    end
}

/// How the script of a new image ends over two devices.
fn end_over<I: Input, O: Output>(
    alloc: Global,
    input: &mut I,
    output: &mut O,
) -> Result<u64, Refusal> {
    let image = Image::new(alloc, Settings::DEFAULT)?;
    let done = script_on(alloc, input, output, ScriptSettings::DEFAULT, image);
    end_of(done)
}

/// How the script of a text ends that a new image answers on a device.
pub(crate) fn end_on<O: Output>(
    alloc: Global,
    text: &[u8],
    output: &mut O,
) -> Result<Result<u64, Refusal>, AllocError> {
    let mut input = MemoryInput::new(Vec::from_slice(alloc, text)?);
    Ok(end_over(alloc, &mut input, output))
}

/// A device that gives its bytes in pieces.
#[derive(Drop)]
struct Pieces<'a> {
    left: &'a [u8],
    longest: usize,
}

impl Read for Pieces<'_> {
    fn read(&mut self, buffer: &mut [u8]) -> io::Result<usize> {
        let end = self.longest.min(buffer.len());
        self.left.read(&mut buffer[..end])
    }
}

/// How the script of a new image ends whose input comes in pieces of this many bytes, and what it wrote.
fn written_in_pieces(
    alloc: Global,
    settings: ScriptSettings,
    script: &[u8],
    longest: usize,
) -> Result<(MemoryOutput, Result<u64, Refusal>), Refusal> {
    let image = Image::new(alloc, Settings::DEFAULT)?;
    let mut input = Reader::new(Pieces {
        left: script,
        longest,
    });
    let mut output = MemoryOutput::new(alloc);
    let done = script_on(alloc, &mut input, &mut output, settings, image);
    Ok((output, end_of(done)))
}

/// Whether a script is answered by these replies and ends so, however its bytes are cut.
pub(crate) fn says_in_pieces(
    alloc: Global,
    settings: ScriptSettings,
    script: &[u8],
    replies: &[u8],
    end: Result<u64, Refusal>,
) -> Result<bool, Fail> {
    for longest in [1, 2, 7, 8192] {
        let (output, ended) = written_in_pieces(alloc, settings, script, longest)?;
        if ended != end || output.as_slice() != replies {
            return Ok(false);
        }
    }
    Ok(true)
}

/// A reader whose every other read is interrupted.
#[derive(Drop)]
struct Interrupted {
    left: &'static [u8],
    is_next: bool,
}

impl Read for Interrupted {
    fn read(&mut self, buffer: &mut [u8]) -> io::Result<usize> {
        self.is_next = !self.is_next;
        if self.is_next {
            return Err(io::Error::from(ErrorKind::Interrupted));
        }
        self.left.read(buffer)
    }
}

/// How a script ends over devices, and what it wrote.
fn written_to_a_device(alloc: Global) -> (Vec<u8>, Result<u64, Refusal>) {
    let mut bytes = Vec::new(alloc);
    let mut input = Reader::new(Interrupted {
        left: b"{\"cmd\":\"run\"}\nno\n",
        is_next: false,
    });
    let end = end_over(alloc, &mut input, &mut Writer::new(&mut bytes));
    (bytes, end)
}

#[test]
fn an_interrupted_read_is_no_failure(rt: HostRuntime) -> Result<(), Fail> {
    let (bytes, end) = written_to_a_device(rt.alloc());
    assert!(rt; end == Ok(2));
    let wanted = b"{\"ok\":{\"quanta\":0,\"steps\":0}}\n{\"error\":\"BadCommand\"}\n";
    assert!(rt; bytes.as_slice() == wanted.as_slice());
    Ok(())
}

/// An output that fails after this many writes, or after this many flushes.
#[derive(Drop)]
struct FailingOutput {
    inner: MemoryOutput,
    left: u32,
    flushes_left: u32,
    failures: u64,
    flushes: u64,
}

fn failing_output(alloc: Global, left: u32, flushes_left: u32) -> FailingOutput {
    FailingOutput {
        inner: MemoryOutput::new(alloc),
        left,
        flushes_left,
        failures: 0,
        flushes: 0,
    }
}

impl Output for FailingOutput {
    ghost contents = { λ f. Some f.inner.bytes.items };

    ghost failures = { λ f. f.failures };

    ghost flushes = { λ f. f.flushes };

    fn write(&mut self, bytes: &[u8]) -> Result<usize, WriteFailed> {
        if self.left > 0 {
            self.left -= 1;
            if let Ok(count) = self.inner.write(bytes) {
                return Ok(count);
            }
        }
        self.failures = self.failures.wrapping_add(1);
        Err(WriteFailed)
    }

    fn flush(&mut self) -> Result<(), WriteFailed> {
        self.flushes = self.flushes.wrapping_add(1);
        if self.flushes_left > 0 {
            self.flushes_left -= 1;
            return Ok(());
        }
        self.failures = self.failures.wrapping_add(1);
        Err(WriteFailed)
    }
}

#[test]
fn output_fails(rt: HostRuntime) -> Result<(), Fail> {
    let mut output = failing_output(rt.alloc(), 1, u32::MAX);
    let end = end_on(rt.alloc(), TWO_RUNS, &mut output)?;
    assert!(rt; end == Err(Refusal::WriteFault));
    assert!(rt; output.inner.as_slice() == RAN.as_bytes());
    Ok(())
}

/// What is written is flushed before each read: once before the first one, and once where no whole line is left.
#[test]
fn a_flush_fails(rt: HostRuntime) -> Result<(), Fail> {
    for (flushes, replies) in [(0, ""), (1, RAN)] {
        let mut output = failing_output(rt.alloc(), u32::MAX, flushes);
        let end = end_on(rt.alloc(), RUN, &mut output)?;
        assert!(rt; end == Err(Refusal::WriteFault));
        assert!(rt; output.inner.as_slice() == replies.as_bytes());
    }
    Ok(())
}

/// A writer that takes nothing.
#[derive(Drop)]
struct Idle;

impl Write for Idle {
    fn write(&mut self, _: &[u8]) -> io::Result<usize> {
        Ok(0)
    }

    fn flush(&mut self) -> io::Result<()> {
        Ok(())
    }
}

#[test]
fn a_writer_that_takes_nothing_fails(rt: HostRuntime) -> Result<(), Fail> {
    let end = end_on(rt.alloc(), RUN, &mut Writer::new(Idle))?;
    assert!(rt; end == Err(Refusal::WriteFault));
    Ok(())
}
