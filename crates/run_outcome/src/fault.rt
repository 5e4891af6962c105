//! What ends a run before its end.
ghost use Rattle.std.specs.Prelude.{◌≡◌};
ghost use Rattle.run_outcome.specs.LowerFaults.{capture_fault, file_fault, picture_fault};
ghost use Rattle.run_outcome.specs.LowerFaults.{reading_fault, state_fault};

use crate::refusal::Refusal;
use key_mix::JobFault;
use media_file::FileFault;
use packet_plan::PlanFault;
use path_receiver::OpenFault;
use pcap_file::RecordingFault;
use recording_reader::ReadingFault;
use sdp_format::{FlowsFault, Located, SdpFault};
use st_format::DeviceFault;
use std::alloc::AllocError;

/// What ends a run before its end.
#[derive(Clone, Copy)]
pub enum Fault {
    /// The words or the files are refused.
    Refused(Refusal),
    /// A device failed. Which one its own count says.
    Device,
    /// Memory was wanted, and there was none.
    Memory,
}

impl From<AllocError> for Fault {
    ghost use Rattle.std.specs.Prelude.{◌≡◌};
    ghost use Rattle.run_outcome.specs.declared.fault.Fault.TheVariants.{Memory};

    ghost from_gives = { λ _ fault. fault ≡ Memory };

    fn from(_: AllocError) -> Fault {
        Fault::Memory
    }
}

impl From<DeviceFault> for Fault {
    ghost use Rattle.std.specs.Prelude.{◌≡◌};
    ghost use Rattle.run_outcome.specs.declared.fault.Fault.TheVariants.{Device};

    ghost from_gives = { λ _ fault. fault ≡ Device };

    fn from(_: DeviceFault) -> Fault {
        Fault::Device
    }
}

impl From<Located> for Fault {
    ghost use Rattle.std.specs.Prelude.{◌≡◌};
    ghost use Rattle.run_outcome.specs.LowerFaults.{of_sdp};

    ghost from_gives = { λ refusal fault. fault ≡ of_sdp refusal };

    fn from(refusal: Located) -> Fault {
        match refusal.fault {
            SdpFault::NoMemory => Fault::Memory,
            _ => Fault::Refused(Refusal::Sdp(refusal)),
        }
    }
}

impl From<FlowsFault> for Fault {
    ghost use Rattle.std.specs.Prelude.{◌≡◌};
    ghost use Rattle.run_outcome.specs.LowerFaults.{of_flows};

    ghost from_gives = { λ refusal fault. fault ≡ of_flows refusal };

    fn from(refusal: FlowsFault) -> Fault {
        Fault::Refused(Refusal::Flows(refusal))
    }
}

impl From<OpenFault> for Fault {
    ghost use Rattle.std.specs.Prelude.{◌≡◌};
    ghost use Rattle.run_outcome.specs.LowerFaults.{of_open};

    ghost from_gives = { λ refusal fault. fault ≡ of_open refusal };

    fn from(refusal: OpenFault) -> Fault {
        match refusal {
            OpenFault::NoMemory => Fault::Memory,
            refusal => Fault::Refused(Refusal::Open(refusal)),
        }
    }
}

impl From<PlanFault> for Fault {
    ghost use Rattle.std.specs.Prelude.{◌≡◌};
    ghost use Rattle.run_outcome.specs.LowerFaults.{of_plan};

    ghost from_gives = { λ refusal fault. fault ≡ of_plan refusal };

    fn from(refusal: PlanFault) -> Fault {
        match refusal {
            PlanFault::NoMemory => Fault::Memory,
            refusal => Fault::Refused(Refusal::Plan(refusal)),
        }
    }
}

impl From<JobFault> for Fault {
    ghost use Rattle.std.specs.Prelude.{◌≡◌};
    ghost use Rattle.run_outcome.specs.LowerFaults.{of_job};

    ghost from_gives = { λ refusal fault. fault ≡ of_job refusal };

    fn from(refusal: JobFault) -> Fault {
        match refusal {
            JobFault::NoMemory => Fault::Memory,
            refusal => Fault::Refused(Refusal::Job(refusal)),
        }
    }
}

impl From<RecordingFault> for Fault {
    ghost use Rattle.std.specs.Prelude.{◌≡◌};
    ghost use Rattle.run_outcome.specs.LowerFaults.{of_recording};

    ghost from_gives = { λ refusal fault. fault ≡ of_recording refusal };

    fn from(refusal: RecordingFault) -> Fault {
        match refusal {
            RecordingFault::Device => Fault::Device,
            refusal => Fault::Refused(Refusal::Recording(refusal)),
        }
    }
}

/// A capture's fault as one that ends a run: want of memory and a device's are none of the file's.
pub fn of_capture(fault: FileFault) -> Fault
    ensures { result ≡ capture_fault fault }
{
    of_file(fault, Refusal::Capture(fault))
}

/// A fault of a file of datagrams: that of a capture, or of a recording of another tool.
pub fn of_reading(fault: ReadingFault) -> Fault
    ensures { result ≡ reading_fault fault }
{
    match fault {
        ReadingFault::Capture(fault) => of_capture(fault),
        ReadingFault::Recording(fault) => fault.into(),
    }
}

/// A fault of a picture's file, as [`of_capture`] has one of a capture.
pub fn of_picture(fault: FileFault) -> Fault
    ensures { result ≡ picture_fault fault }
{
    of_file(fault, Refusal::Picture(fault))
}

/// A fault of a receiver's file, as [`of_capture`] has one of a capture.
pub fn of_state(fault: FileFault) -> Fault
    ensures { result ≡ state_fault fault }
{
    of_file(fault, Refusal::State(fault))
}

/// What ends a run at a file: this refusal, unless the device failed or memory was wanted.
fn of_file(fault: FileFault, refusal: Refusal) -> Fault
    ensures { result ≡ file_fault fault refusal }
{
    match fault {
        FileFault::Device => Fault::Device,
        FileFault::NoMemory => Fault::Memory,
        _ => Fault::Refused(refusal),
    }
}
