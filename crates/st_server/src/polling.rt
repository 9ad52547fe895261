//! A socket's stream, at which a thread looks some times before it sleeps for it.
//!
//! To put a thread to sleep and to wake it takes longer than most answers. A client that asks again at once is answered without
//! either.
use std::io::{self, ErrorKind, Read, Write};
use std::os::unix::net::UnixStream;
use std::thread::yield_now;

/// How many looks for bytes find none before the thread sleeps for them. Between two looks other threads may run. With none that
/// wants to, all of them take some 20 microseconds.
const LOOKS: u32 = 32;

/// A stream, for reading or for writing. No call of it blocks, but those for which the thread sleeps.
#[derive(Drop)]
pub(crate) struct Polled<'a> {
    stream: &'a UnixStream,
}

impl<'a> Polled<'a> {
    /// A stream that was set so that no call of it blocks. Of one that blocks each read sleeps at once.
    pub(crate) fn new(stream: &'a UnixStream) -> Polled<'a> {
        Polled { stream }
    }
}

/// Whether a stream has nothing to give or no room to take.
fn would_block(error: &io::Error) -> bool {
    error.kind() == ErrorKind::WouldBlock
}

impl<'a> Read for Polled<'a> {
    fn read(&mut self, buffer: &mut [u8]) -> io::Result<usize> {
        let mut stream = self.stream;
        for _ in 0..LOOKS {
            match stream.read(buffer) {
                Err(error) if would_block(&error) => yield_now(),
                result => return result,
            }
        }
        stream.set_nonblocking(false)?;
        let result = stream.read(buffer);
        let _ = stream.set_nonblocking(true);
        result
    }
}

impl<'a> Write for Polled<'a> {
    fn write(&mut self, bytes: &[u8]) -> io::Result<usize> {
        let mut stream = self.stream;
        match stream.write(bytes) {
            Err(error) if would_block(&error) => {}
            result => return result,
        }
        stream.set_nonblocking(false)?;
        let result = stream.write(bytes);
        let _ = stream.set_nonblocking(true);
        result
    }

    fn flush(&mut self) -> io::Result<()> {
        Ok(())
    }
}
