//! A session's output, which waits until the replies are true whatever happens.
use crate::recording::Recorder;
use st_pool::naming::Naming;
use st_script::keepers::Keeper;
use std::alloc::Global;
use std::io::{self, ErrorKind, Write};
use std::sync::Wait;
use std::time::Clock;

/// Before it passes bytes on, it waits until all that had happened is on the disk, if replies wait for that.
#[derive(Drop)]
pub(crate) struct Awaiting<'a, R: Wait + Clock, K: Naming, S: Keeper, W: Write> {
    pub(crate) rt: &'a R,
    pub(crate) alloc: Global,
    pub(crate) recorder: &'a Recorder<'a, K, S>,
    pub(crate) output: W,
}

impl<'a, R: Wait + Clock, K: Naming, S: Keeper, W: Write> Write for Awaiting<'a, R, K, S, W> {
    fn write(&mut self, bytes: &[u8]) -> io::Result<usize> {
        match self.recorder.reach(self.rt, self.alloc) {
            Ok(()) => self.output.write(bytes),
            Err(_) => Err(io::Error::from(ErrorKind::Other)),
        }
    }

    fn flush(&mut self) -> io::Result<()> {
        self.output.flush()
    }
}
