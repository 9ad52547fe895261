//! A log that was recovered.
ghost use Rattle.std.specs.Prelude.{◌≡◌, length};
ghost use Rattle.st_log.specs.Lines.{whole_lines};

use crate::device::{Device, DeviceError};
use crate::logs::Log;
use std::alloc::Global;
use std::marker::Model;

/// A log that was recovered: its device has whole lines and behind them an empty line, all of it on the disk. Contracts see the device.
#[derive(Drop)]
pub struct Recovered<D: Device> {
    log: Log<D>,
}

impl<D: Device> Model for Recovered<D> {
    ghost use Rattle.st_log.specs.Logs.{IsReady};

    ghost Value = { D };

    ghost view = { λ r. r.log.device };

    ghost invariant = { λ r. IsReady D.contents D.may_leave r.log };
}

impl<D: Device + Drop> Recovered<D> {
    ghost use Rattle.std.specs.Prelude.{◌++◌, IfOk};
    ghost use Rattle.st_log.specs.Device.{CrashesLeave};
    ghost use Rattle.st_log.specs.Lines.{IsBatch, IsBeforeOrAfter};
    ghost use Rattle.st_log.specs.Logs.{HasOldLines};

    /// Recovers the log of a device, as [`Log::recover`] does. The answer has its lines. After an error the device is let go.
    pub fn open(alloc: Global, device: D) -> Result<(Recovered<D>, Vec<u8>), DeviceError>
        ensures lines { IfOk result (λ r. r.1.items ≡ whole_lines (D.contents device)) }
        ensures same { IfOk result (λ r. whole_lines (D.contents r.0) ≡ whole_lines (D.contents device)) }
        ensures any_moment { IfOk result (λ r. CrashesLeave D.moment D.left_since device r.0 (HasOldLines D.contents D.may_leave device)) }
    {
        let mut log = Log::new(device);
        match log.recover(alloc) {
            Ok(lines) => Ok((Recovered { log }, lines)),
            Err(error) => {
                drop(log);
                Err(error)
            }
        }
    }

    /// Adds a batch, as [`Log::append`] does. After an error the device is let go: it has the lines from before, with all of the batch or
    /// without.
    pub fn append(self, batch: &[u8]) -> Result<Recovered<D>, DeviceError>
        requires { IsBatch batch.now }
        ensures appended { IfOk result (λ r. whole_lines (D.contents r) ≡ whole_lines (D.contents self) ++ whole_lines batch.now) }
        ensures any_moment { IfOk result (λ r. CrashesLeave D.moment D.left_since self r (IsBeforeOrAfter (whole_lines (D.contents self)) batch.now)) }
    {
        let Recovered { mut log } = self;
        match log.append(batch) {
            Ok(()) => Ok(Recovered { log }),
            Err(error) => {
                drop(log);
                Err(error)
            }
        }
    }

    /// How many bytes the lines have.
    pub fn end(&self) -> usize
        ensures { result ≡ length (whole_lines (D.contents self.now)) }
    {
        self.log.end()
    }
}
