//! How a command ends: by a status, by a line where it came to a fault, and, where that is asked
//! for, by one more line that says where the fault is and what was wanted there.
ghost use Rattle.std.specs.Prelude.{◌≡◌, ◌⊎◌, Err};
ghost use Rattle.command_end.specs.Ended.{TellsDevice, TellsEnd};
ghost use Rattle.devices.specs.Passed.{output_failures, output_took};
ghost use Rattle.run_outcome.specs.declared.fault.Fault.TheVariants.{Refused};
ghost use Rattle.st_format.specs.Device.{Failed};

use crate::command::Ran;
use crate::places::{Devices, explain};
use devices::OutputSink;
use run_outcome::{Fault, Status, end};
use std::io::Stderr;

/// Ends a command that came to this, and answers its status. Where what it wrote is not written out
/// whole, that is one fault more.
pub(crate) fn end_run(
    rt: &HostRuntime,
    is_verbose: bool,
    ran: Ran,
    devices: &Devices<'_>,
    faults: &mut OutputSink<Stderr>,
) -> u8
    ensures ends { TellsEnd ran.outcome ran.is_whole result
        (output_took faults.old) (output_took faults.new)
        (output_failures faults.old) (output_failures faults.new) }
    ensures blamed { result ≡ 3
        → Failed (output_failures faults.old) (output_failures faults.new)
        ⊎ TellsDevice (λ r. ran.outcome ≡ Err (Refused r)) ran.is_whole
        (output_took faults.old) (output_took faults.new) }
{
    let outcome = blamed(ran.outcome, devices);
    let status = end(outcome, faults);
    tell_more(rt, is_verbose, outcome, devices);
    if ran.is_whole || status == Status::Device.number() {
        return status;
    }
    let cut = Err(Fault::Device);
    let status = end(cut, faults);
    tell_more(rt, is_verbose, cut, devices);
    status
}

/// An outcome by what the devices say: where one of them failed for want of memory, memory was
/// wanted.
fn blamed(outcome: Result<(), Fault>, devices: &Devices<'_>) -> Result<(), Fault>
    ensures { (result ≡ outcome)
        ⊎ ((outcome ≡ Err Fault.Device) × (result ≡ Err Fault.Memory)) }
{
    match outcome {
        Err(Fault::Device) if devices.want_memory() => Err(Fault::Memory),
        outcome => outcome,
    }
}

/// Says where the fault of a run is, if it came to one, and if that is asked for.
fn tell_more(
    rt: &HostRuntime,
    is_verbose: bool,
    outcome: Result<(), Fault>,
    devices: &Devices<'_>,
) {
    match outcome {
        Err(fault) if is_verbose => explain(rt, fault, devices),
        _ => {}
    }
}
