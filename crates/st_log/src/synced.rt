//! Changes of a device, each with a sync.
ghost use Rattle.std.specs.Prelude.{◌≡◌, ◌+◌, ◌<◌, ◌≤◌, ◌^◌, length, take, OnOk, OnErr};
ghost use Rattle.st_log.specs.Device.{CrashesLeave, IsDurable, Overwritten, TornTruncation, TornWrite, error_of};

use crate::device::{Device, DeviceError};

/// Writes, and waits until it is on the disk.
pub fn write_synced<D: Device>(device: &mut D, at: usize, bytes: &[u8]) -> Result<(), DeviceError>
    requires at { at ≤ length (D.contents device.old) }
    requires durable { IsDurable (D.contents device.old) (D.may_leave device.old) }
    ensures written { OnOk result (Overwritten (D.contents device.old) at bytes.now (D.contents device.new)) }
    ensures fits { OnOk result (at + length bytes.now < 2 ^ 63) }
    ensures durable { OnOk result (IsDurable (D.contents device.new) (D.may_leave device.new)) }
    ensures torn { OnErr result (TornWrite at (length bytes.now) (D.contents device.old) (D.contents device.new)) }
    ensures any_moment { CrashesLeave D.moment D.left_since device.old device.new (TornWrite at (length bytes.now) (D.contents device.old)) }
    ensures error { D.last_error device.new ≡ error_of result }
{
    device.write_at(at, bytes)?;
    device.sync()?;
    Ok(())
}

/// Cuts to a length, and waits until that is on the disk.
pub fn truncate_synced<D: Device>(device: &mut D, len: usize) -> Result<(), DeviceError>
    requires len { len ≤ length (D.contents device.old) }
    requires durable { IsDurable (D.contents device.old) (D.may_leave device.old) }
    ensures truncated { OnOk result (D.contents device.new ≡ take len (D.contents device.old)) }
    ensures durable { OnOk result (IsDurable (D.contents device.new) (D.may_leave device.new)) }
    ensures torn { OnErr result (TornTruncation len (D.contents device.old) (D.contents device.new)) }
    ensures any_moment { CrashesLeave D.moment D.left_since device.old device.new (TornTruncation len (D.contents device.old)) }
    ensures error { D.last_error device.new ≡ error_of result }
{
    device.truncate(len)?;
    device.sync()?;
    Ok(())
}
