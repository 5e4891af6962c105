//! Why a report was not written.
ghost use Rattle.std.specs.Prelude.{◌≡◌};
ghost use Rattle.frame_report.specs.declared.fault.ReportFault.TheVariants.{Device};

use st_format::DeviceFault;
use thiserror::Error;

/// Why a report was not written whole.
#[derive(Clone, Copy, Debug, PartialEq, Eq, Error)]
pub enum ReportFault {
    /// The sink failed. Why is its own matter.
    #[error("the sink failed")]
    Device = 1,
}

impl ReportFault {
    ghost use Rattle.frame_report.specs.Faults.{report_fault_name, report_fault_number};

    /// The fault's number: 1.
    pub fn number(self) -> u8
        ensures { result ≡ report_fault_number self }
    {
        self as u8
    }

    /// Its bare name, as the texts of the program have it.
    pub fn name(self) -> &'static str
        ensures { result.now ≡ report_fault_name self }
    {
        match self {
            ReportFault::Device => "Device",
        }
    }
}

impl From<DeviceFault> for ReportFault {
    ghost from_gives = { λ _ e. e ≡ Device };

    fn from(_fault: DeviceFault) -> ReportFault {
        ReportFault::Device
    }
}
