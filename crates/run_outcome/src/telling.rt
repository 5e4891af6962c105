//! Telling how a run ends: a line to the faults, and a status.
ghost use Rattle.run_outcome.specs.Telling.{TellsLine, device_line, memory_line};
ghost use Rattle.run_outcome.specs.declared.status.Status.TheVariants.{Device, Memory};

use crate::status::Status;
use st_format::{ByteSink, write_whole};

/// What is told where a device failed.
const DEVICE_LINE: &[u8] = b"st2110: device\n";

/// What is told where memory was wanted.
const MEMORY_LINE: &[u8] = b"st2110: memory\n";

/// Tells that memory was wanted, and how the run ends, as [`tell_line`] does.
pub(crate) fn tell_memory<F: ByteSink>(faults: &mut F) -> Status
    ensures { TellsLine Memory memory_line result
        (F.failures faults.old) (F.failures faults.new) (F.took faults.old) (F.took faults.new) }
{
    tell_line(Status::Memory, MEMORY_LINE, faults)
}

/// Tells that a device failed, and how the run ends, as [`tell_line`] does.
pub(crate) fn tell_device<F: ByteSink>(faults: &mut F) -> Status
    ensures { TellsLine Device device_line result
        (F.failures faults.old) (F.failures faults.new) (F.took faults.old) (F.took faults.new) }
{
    tell_line(Status::Device, DEVICE_LINE, faults)
}

/// Writes a line to the faults, and tells how the run ends: by this status, but where the sink
/// fails.
pub(crate) fn tell_line<F: ByteSink>(status: Status, line: &[u8], faults: &mut F) -> Status
    ensures { TellsLine status line.now result
        (F.failures faults.old) (F.failures faults.new) (F.took faults.old) (F.took faults.new) }
{
    match write_whole(faults, line) {
        Ok(()) => status,
        Err(_) => Status::Device,
    }
}
