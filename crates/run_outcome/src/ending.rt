//! How a run ends: by a status, and where it came to a fault by a line.
ghost use Rattle.std.specs.Prelude.{◌≡◌, ◌≢◌, ◌⊎◌, ◌++◌, Err};
ghost use Rattle.st_format.specs.Device.{Failed};
ghost use Rattle.run_outcome.specs.Fault.{EndsDone, EndsFailed, EndsRefused, EndsWorked};
ghost use Rattle.run_outcome.specs.Fault.{TellsFault};
ghost use Rattle.run_outcome.specs.Refusing.{TellsOutcome};
ghost use Rattle.run_outcome.specs.Telling.{device_line, memory_line};

use crate::fault::Fault;
use crate::refusal::Refusal;
use crate::refusal_text::line_of;
use crate::status::Status;
use crate::telling::{tell_device, tell_line, tell_memory};
use st_format::ByteSink;

/// What a run comes to: its exit status. Where it came to a fault, `faults` is told of it by one
/// line.
///
/// The status is 0 where all was done, 1 where the run was refused, 3 where a device failed, also
/// `faults`, and 4 where memory was wanted.
pub fn end<F: ByteSink>(outcome: Result<(), Fault>, faults: &mut F) -> u8
    ensures range { (result ≡ 0) ⊎ (result ≡ 1) ⊎ (result ≡ 3) ⊎ (result ≡ 4) }
    ensures done { result ≡ 0 → EndsDone outcome }
    ensures finished { EndsDone outcome → result ≡ 0 }
    ensures silent { result ≡ 0 → faults.new ≡ faults.old }
    ensures refused { result ≡ 1 → EndsRefused outcome }
    ensures told { result ≡ 1 → TellsOutcome outcome (F.took faults.old) (F.took faults.new) }
    ensures failed { result ≡ 3
        → EndsFailed outcome ⊎ Failed (F.failures faults.old) (F.failures faults.new) }
    ensures worked { result ≢ 3 → EndsWorked outcome }
    ensures working { result ≢ 3 → F.failures faults.new ≡ F.failures faults.old }
    ensures blamed { result ≡ 3 → Failed (F.failures faults.old) (F.failures faults.new)
        ⊎ (F.took faults.new ≡ F.took faults.old ++ device_line) }
    ensures memory { result ≡ 4 → F.took faults.new ≡ F.took faults.old ++ memory_line }
    // A line of its own wants no memory.
    ensures wanted { result ≡ 4 → outcome ≡ Err Fault.Memory }
    ensures unfailed { EndsRefused outcome → result ≢ 3 → result ≡ 1 }
{
    match outcome {
        Ok(()) => Status::Done.number(),
        Err(fault) => tell(fault, faults).number(),
    }
}

/// Tells a fault by its line, and answers how the run ends.
fn tell<F: ByteSink>(fault: Fault, faults: &mut F) -> Status
    ensures { TellsFault fault result (F.failures faults.old) (F.failures faults.new)
        (F.took faults.old) (F.took faults.new) }
{
    match fault {
        Fault::Device => tell_device(faults),
        Fault::Memory => tell_memory(faults),
        Fault::Refused(refusal) => tell_refusal(refusal, faults),
    }
}

fn tell_refusal<F: ByteSink>(refusal: Refusal, faults: &mut F) -> Status
    ensures { TellsFault (Fault.Refused refusal) result (F.failures faults.old)
        (F.failures faults.new) (F.took faults.old) (F.took faults.new) }
{
    tell_line(Status::Refused, line_of(refusal).as_bytes(), faults)
}
