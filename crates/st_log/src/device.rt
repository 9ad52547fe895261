//! A device: the bytes of one file, and what a crash may leave of them.
ghost use Rattle.std.specs.Prelude.{◌≡◌, ◌+◌, ◌<◌, ◌≤◌, ◌^◌, List, Option, ℕ, length, take, IfOk, OnOk, OnErr};
ghost use Rattle.st_log.specs.declared.device.DeviceError.{DeviceError};
ghost use Rattle.st_log.specs.Device.{Elapses, Follows, IsDurable, Overwritten, TornTruncation, TornWrite, error_of};

use std::alloc::Global;

/// Why a call of a device failed.
#[derive(Clone, Copy, Debug, PartialEq, Eq)]
pub enum DeviceError {
    /// The allocator gave no memory.
    NoMemory,
    /// The device read or wrote less than it was asked to, or a sync failed.
    Failed,
}

/// The bytes of one file, fewer than 2^63. A crash loses what was not synced, in whole or in part.
///
/// After an error, what a read returns and what a crash may leave is as after a call that was torn. A device on which a sync may lose
/// writes when it fails, and later answer `Ok`, is none: it has to fail from then on.
pub trait Device {
    /// The bytes that a read returns.
    ghost contents: { Self → List ℕ };

    /// What a crash at this moment may leave.
    ghost may_leave: { Self → List ℕ → Type 0 };

    /// The moment, as a number that does not fall.
    ghost moment: { Self → ℕ };

    /// What a crash at some moment from that one on might have left, during a call or between two.
    ghost left_since: { Self → ℕ → List ℕ → Type 0 };

    /// The error of the newest call, if it failed.
    ghost last_error: { Self → Option DeviceError };

    /// All the bytes.
    fn read(&mut self, alloc: Global) -> Result<Vec<u8>, DeviceError>
        ensures bytes { IfOk result (λ bytes. bytes.items ≡ contents self.old) }
        ensures same { contents self.new ≡ contents self.old }
        ensures crash { (c : List ℕ) → may_leave self.new c → may_leave self.old c }
        ensures time { Elapses (moment self.old) (moment self.new) (left_since self.old) (left_since self.new) (may_leave self.new) }
        ensures error { last_error self.new ≡ error_of result };

    /// Writes over what is there, and past the end. `at` is a number of bytes from the start. Until a sync, a crash may leave any bytes
    /// in the range.
    fn write_at(&mut self, at: usize, bytes: &[u8]) -> Result<(), DeviceError>
        requires { at ≤ length (contents self.old) }
        ensures written { OnOk result (Overwritten (contents self.old) at bytes.now (contents self.new)) }
        ensures fits { OnOk result (at + length bytes.now < 2 ^ 63) }
        ensures torn { OnErr result (TornWrite at (length bytes.now) (contents self.old) (contents self.new)) }
        ensures crash { Follows (TornWrite at (length bytes.now)) (may_leave self.old) (may_leave self.new) }
        ensures time { Elapses (moment self.old) (moment self.new) (left_since self.old) (left_since self.new) (may_leave self.new) }
        ensures error { last_error self.new ≡ error_of result };

    /// Cuts the bytes to a length. Until a sync, a crash may leave any length between.
    fn truncate(&mut self, len: usize) -> Result<(), DeviceError>
        requires { len ≤ length (contents self.old) }
        ensures truncated { OnOk result (contents self.new ≡ take len (contents self.old)) }
        ensures torn { OnErr result (TornTruncation len (contents self.old) (contents self.new)) }
        ensures crash { Follows (TornTruncation len) (may_leave self.old) (may_leave self.new) }
        ensures time { Elapses (moment self.old) (moment self.new) (left_since self.old) (left_since self.new) (may_leave self.new) }
        ensures error { last_error self.new ≡ error_of result };

    /// Waits until all is on the disk. After it, a crash leaves what a read returns.
    fn sync(&mut self) -> Result<(), DeviceError>
        ensures durable { OnOk result (IsDurable (contents self.old) (may_leave self.new)) }
        ensures same { contents self.new ≡ contents self.old }
        ensures crash { (c : List ℕ) → may_leave self.new c → may_leave self.old c }
        ensures time { Elapses (moment self.old) (moment self.new) (left_since self.old) (left_since self.new) (may_leave self.new) }
        ensures error { last_error self.new ≡ error_of result };

    /// This moment is one of those since an earlier one.
    ghost counts_now: { (device : Self) (t : ℕ) (c : List ℕ) → t ≤ moment device → may_leave device c → left_since device t c };

    /// Since this moment there is no other.
    ghost only_now: { (device : Self) (c : List ℕ) → left_since device (moment device) c → may_leave device c };
}
