//! A log on a device.
ghost use Rattle.std.specs.Prelude.{◌≡◌, ◌++◌, All, IfErr, IfOk, OnErr, OnOk, Some, Vec, ℕ};
ghost use Rattle.std.specs.declared.alloc.Global.{Global};
ghost use Rattle.st_log.specs.Device.{CrashesLeave, error_of};
ghost use Rattle.st_log.specs.Lines.{whole_lines, lines_of, HasFirst, IsBatch, IsBeforeOrAfter};
ghost use Rattle.st_log.specs.Logs.{HasOldLines, IsReady};

use crate::device::{Device, DeviceError};
use crate::repair::repair;
use crate::synced::write_synced;
use std::alloc::Global;

/// A log of lines. Its device has them, and behind them an empty line, once the log was recovered.
#[derive(Drop)]
pub struct Log<D: Device> {
    pub device: D,
    /// Where the whole lines end, in bytes from the start.
    end: usize,
}

impl<D: Device> Log<D> {
    /// A log on a device, which is empty or had a log before. It has to be recovered before anything is appended.
    pub fn new(device: D) -> Log<D>
        ensures { result.device ≡ device }
    {
        Log { device, end: 0 }
    }

    /// Where the whole lines end, in bytes from the start, once the log was recovered.
    pub fn end(&self) -> usize
        ensures { result ≡ self.now.end }
    {
        self.end
    }

    /// Reads the whole lines, and cuts off what a crash left behind them. Then the log is ready for batches.
    ///
    /// The lines are those that a read of the device returns, and stay the same, also where this fails. A crash at any moment leaves
    /// these lines, or those that a crash could have left before.
    ///
    /// It fails with the error of the device's call that failed, and makes no call after that one. The log is then to be recovered
    /// again. A device fails where there is no memory for its bytes.
    pub fn recover(&mut self, alloc: Global) -> Result<Vec<u8>, DeviceError>
        ensures lines { IfOk result (λ lines. lines.items ≡ whole_lines (D.contents self.old.device)) }
        ensures ready { OnOk result (IsReady D.contents D.may_leave self.new) }
        ensures same { whole_lines (D.contents self.new.device) ≡ whole_lines (D.contents self.old.device) }
        ensures any_moment { CrashesLeave D.moment D.left_since self.old.device self.new.device
            (HasOldLines D.contents D.may_leave self.old.device) }
        ensures error { D.last_error self.new.device ≡ error_of result }
    {
        let lines = repair(alloc, &mut self.device)?;
        self.end = lines.len();
        Ok(lines)
    }

    /// Adds a batch of lines. A batch is whole lines, at least one, and behind them an empty line.
    ///
    /// At `Ok` the lines are on the disk: each crash from then on leaves them. A crash at any moment of the call leaves the lines from
    /// before, with all of the batch or without.
    ///
    /// It fails with the error of the device's call that failed, and makes no call after that one. A read of the device then returns the
    /// lines from before, with all of the batch or without, and the log is to be recovered. It takes no memory but what the device takes.
    pub fn append(&mut self, batch: &[u8]) -> Result<(), DeviceError>
        requires ready { IsReady D.contents D.may_leave self.old }
        requires batch { IsBatch batch.now }
        ensures ready { OnOk result (IsReady D.contents D.may_leave self.new) }
        ensures appended { OnOk result (whole_lines (D.contents self.new.device)
            ≡ whole_lines (D.contents self.old.device) ++ whole_lines batch.now) }
        ensures torn { OnErr result (IsBeforeOrAfter (whole_lines (D.contents self.old.device)) batch.now (D.contents self.new.device)) }
        ensures any_moment { CrashesLeave D.moment D.left_since self.old.device self.new.device
            (IsBeforeOrAfter (whole_lines (D.contents self.old.device)) batch.now) }
        ensures error { D.last_error self.new.device ≡ error_of result }
    {
        write_synced(&mut self.device, self.end + 1, &batch[1..])?;
        write_synced(&mut self.device, self.end, &batch[..1])?;
        self.end += batch.len() - 1;
        Ok(())
    }

    /// Adds batches in order, each as [`Log::append`] does. With no batches it does nothing.
    ///
    /// A crash at any moment of the call leaves the lines from before, and behind them those of some first batches: none is skipped, and
    /// none is there in part. Where it fails, a read of the device returns such lines too, and the log is to be recovered.
    pub fn append_all(&mut self, batches: &[Vec<u8>]) -> Result<(), DeviceError>
        requires ready { IsReady D.contents D.may_leave self.old }
        requires batches { All (λ (b : Vec ℕ Global). IsBatch b.items) batches.now }
        ensures ready { OnOk result (IsReady D.contents D.may_leave self.new) }
        ensures appended { OnOk result (whole_lines (D.contents self.new.device)
            ≡ whole_lines (D.contents self.old.device) ++ lines_of batches.now) }
        ensures torn { OnErr result (HasFirst (whole_lines (D.contents self.old.device)) batches.now (D.contents self.new.device)) }
        ensures any_moment { CrashesLeave D.moment D.left_since self.old.device self.new.device
            (HasFirst (whole_lines (D.contents self.old.device)) batches.now) }
        ensures error { IfErr result (λ error. D.last_error self.new.device ≡ Some error) }
    {
        for batch in batches {
            self.append(batch)?;
        }
        Ok(())
    }
}
