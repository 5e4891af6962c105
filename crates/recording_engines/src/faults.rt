//! Faults of files as faults that end a run.
ghost use Rattle.std.specs.Prelude.{◌≡◌};
ghost use Rattle.recording_engines.specs.Faults.{opening_fault};

use recording_reader::FileOpeningFault;
use run_outcome::{Fault, Refusal, of_reading};

/// Why a file was not opened. Where there are no flows, both paths have one.
pub(crate) fn of_opening(fault: FileOpeningFault) -> Fault
    ensures { result ≡ opening_fault fault }
{
    match fault {
        FileOpeningFault::NoFlows => Fault::Refused(Refusal::ImportPlaces),
        FileOpeningFault::NoMemory => Fault::Memory,
        FileOpeningFault::Reading(fault) => of_reading(fault),
    }
}
