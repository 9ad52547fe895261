//! The whole lines of a device that a crash may have left, and the repair of its end.
ghost use Rattle.std.specs.Prelude.{◌≡◌, ◌<◌, ◌^◌, length, IfOk, OnOk};
ghost use Rattle.st_log.specs.Device.{CrashesLeave, IsDurable, error_of};
ghost use Rattle.st_log.specs.Lines.{whole_len_from, whole_lines, with_end};
ghost use Rattle.st_log.specs.Logs.{HasOldLines};

use crate::device::{Device, DeviceError};
use crate::lines::whole_len;
use crate::synced::{truncate_synced, write_synced};
use std::alloc::Global;

/// Cuts off what stands behind the whole lines, which end at `end`, and writes the empty line. All that is there is on the disk.
fn mend<D: Device>(device: &mut D, end: usize) -> Result<(), DeviceError>
    requires end { end ≡ whole_len_from 0 (D.contents device.old) }
    requires durable { IsDurable (D.contents device.old) (D.may_leave device.old) }
    ensures mended { OnOk result (D.contents device.new ≡ with_end (whole_lines (D.contents device.old))) }
    ensures fits { OnOk result (length (D.contents device.new) < 2 ^ 63) }
    ensures durable { OnOk result (IsDurable (D.contents device.new) (D.may_leave device.new)) }
    ensures same { whole_lines (D.contents device.new) ≡ whole_lines (D.contents device.old) }
    ensures any_moment { CrashesLeave D.moment D.left_since device.old device.new
        (λ c. whole_lines c ≡ whole_lines (D.contents device.old)) }
    ensures error { D.last_error device.new ≡ error_of result }
{
    // The cut has to be on the disk first: behind a newline that is torn to a brace, what was there would count.
    truncate_synced(device, end)?;
    write_synced(device, end, b"\n")?;
    Ok(())
}

/// Reads the whole lines, and repairs the end of the file.
pub fn repair<D: Device>(alloc: Global, device: &mut D) -> Result<Vec<u8>, DeviceError>
    ensures lines { IfOk result (λ lines. lines.items ≡ whole_lines (D.contents device.old)) }
    ensures mended { OnOk result (D.contents device.new ≡ with_end (whole_lines (D.contents device.old))) }
    ensures fits { OnOk result (length (D.contents device.new) < 2 ^ 63) }
    ensures durable { OnOk result (IsDurable (D.contents device.new) (D.may_leave device.new)) }
    ensures same { whole_lines (D.contents device.new) ≡ whole_lines (D.contents device.old) }
    ensures any_moment { CrashesLeave D.moment D.left_since device.old device.new
        (HasOldLines D.contents D.may_leave device.old) }
    ensures error { D.last_error device.new ≡ error_of result }
{
    // A process may have ended without a crash of the disk: then not all that is read is on the disk.
    device.sync()?;
    let mut bytes = device.read(alloc)?;
    let end = whole_len(&bytes);
    mend(device, end)?;
    bytes.truncate(end);
    Ok(bytes)
}
