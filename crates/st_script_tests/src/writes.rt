//! A script of which each write fails in turn, or takes nothing: it ends there, and what was written is the front of its replies.
use crate::devices::end_on;
use st_classes::refusals::Refusal;
use st_wire::streams::Writer;
use std::alloc::Global;
use std::io::{self, ErrorKind, Write};
use std::test::*;

const SCRIPT: &[u8] = b"{\"cmd\":\"run\"}\nno\n{\"cmd\":\"run\"}\n";

const REPLIES: &str = r#"{"ok":{"quanta":0,"steps":0}}
{"error":"BadCommand"}
{"ok":{"quanta":0,"steps":0}}
"#;

/// The most bytes of a write.
const MOST: usize = 7;

/// How many bytes are written after each number of writes. The replies have 30, 23 and 30 bytes, and each begins a write.
const WRITTEN: &[usize] = &[0, 7, 14, 21, 28, 30, 37, 44, 51, 53, 60, 67, 74, 81, 83];

// The tables stand behind functions without a contract, so that the proof of a test carries none of them.
fn replies() -> &'static [u8] {
    REPLIES.as_bytes()
}

fn lengths() -> &'static [usize] {
    WRITTEN
}

/// What becomes of the write behind the last that is well.
#[derive(Clone, Copy, PartialEq, Eq, Debug)]
enum Last {
    Fails,
    TakesNothing,
}

/// Takes bytes in this many writes.
#[derive(Drop)]
struct Taking<'a> {
    taken: &'a mut Vec<u8>,
    writes: u32,
    last: Last,
}

impl Write for Taking<'_> {
    fn write(&mut self, bytes: &[u8]) -> io::Result<usize> {
        if self.writes == 0 {
            return match self.last {
                Last::Fails => Err(io::Error::from(ErrorKind::BrokenPipe)),
                Last::TakesNothing => Ok(0),
            };
        }
        self.writes -= 1;
        let end = MOST.min(bytes.len());
        self.taken.write(&bytes[..end])
    }

    fn flush(&mut self) -> io::Result<()> {
        Ok(())
    }
}

/// How the script ends where so many writes are well, and what is written.
fn written(
    alloc: Global,
    writes: u32,
    last: Last,
) -> Result<(Vec<u8>, Result<u64, Refusal>), Refusal> {
    let mut taken = Vec::new(alloc);
    let end = end_on(
        alloc,
        SCRIPT,
        &mut Writer::new(Taking {
            taken: &mut taken,
            writes,
            last,
        }),
    )?;
    Ok((taken, end))
}

/// Whether the script ends so and has written as many bytes of its replies.
fn is_front(
    alloc: Global,
    writes: u32,
    last: Last,
    length: usize,
    wanted: Result<u64, Refusal>,
) -> Result<bool, Refusal> {
    let (taken, end) = written(alloc, writes, last)?;
    let front = replies().get(..length);
    Ok(end == wanted && front == Some(taken.as_slice()))
}

/// Whether it is so after each number of writes, of which the greatest is that of all.
fn are_fronts(alloc: Global, last: Last) -> Result<bool, Refusal> {
    let mut writes = 0u32;
    for length in lengths() {
        let is_all = *length == replies().len();
        let wanted = if is_all {
            Ok(3)
        } else {
            Err(Refusal::WriteFault)
        };
        if !is_front(alloc, writes, last, *length, wanted)? {
            return Ok(false);
        }
        writes = writes.wrapping_add(1);
    }
    Ok(true)
}

#[test]
fn each_write_fails(rt: HostRuntime) -> Result<(), Fail> {
    for last in [Last::Fails, Last::TakesNothing] {
        assert!(rt; are_fronts(rt.alloc(), last)?, "{last:?}");
    }
    Ok(())
}
