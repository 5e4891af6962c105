//! Why there is no picture, and why it wasn't sent.
ghost use Rattle.std.specs.Prelude.{◌≡◌};

use bt709_fixed::ColourFault;
use packet_plan::{PlanFault, SendFault};
use std::alloc::AllocError;
use thiserror::Error;

/// Why there is no picture.
#[derive(Clone, Copy, Debug, PartialEq, Eq, Error)]
pub enum JobFault {
    /// The allocator refused the memory. Tested last.
    #[error("the memory was refused")]
    NoMemory = 1,
    /// The first two pictures have different formats, or the key has another size, depth or rate.
    #[error("the first two pictures differ in format, or the key in size, depth or rate")]
    FormatsDiffer,
    /// The key is of R, G and B, and so has no luma.
    #[error("the key is of R, G and B, and so has no luma")]
    KeyNotYcc,
    /// A wipe's position or softness is above the width or height that its axis names.
    #[error("the wipe's position or softness is above the width or height that its axis names")]
    BadWipe,
    /// The picture isn't of R, G and B.
    #[error("the picture isn't of R, G and B")]
    NotRgb,
    /// The picture isn't of Y, Cb and Cr at each column.
    #[error("the picture isn't of Y, Cb and Cr at each column")]
    NotYcc444,
    /// There are more or fewer pictures than the job takes.
    #[error("there are more or fewer pictures than the job takes")]
    WrongInputCount,
    /// The gain is above 16384.
    #[error("the gain is above 16384")]
    BadGain,
}

impl JobFault {
    ghost use Rattle.key_mix.specs.Faults.{job_fault_name, job_fault_number};

    /// Its number: 1 to 8, which isn't the order of the tests.
    pub fn number(self) -> u8
        ensures { result ≡ job_fault_number self }
    {
        self as u8
    }

    /// Its bare name, as the texts of the program have it.
    pub fn name(self) -> &'static str
        ensures { result.now ≡ job_fault_name self }
    {
        match self {
            JobFault::NoMemory => "NoMemory",
            JobFault::FormatsDiffer => "FormatsDiffer",
            JobFault::KeyNotYcc => "KeyNotYcc",
            JobFault::BadWipe => "BadWipe",
            JobFault::NotRgb => "NotRgb",
            JobFault::NotYcc444 => "NotYcc444",
            JobFault::WrongInputCount => "WrongInputCount",
            JobFault::BadGain => "BadGain",
        }
    }

    /// What was wanted where this fault comes, in words for a person.
    pub fn wanted(self) -> &'static str {
        match self {
            JobFault::NoMemory => "more memory than there is",
            JobFault::FormatsDiffer => {
                "frames of one format, and a key of their size, depth and rate"
            }
            JobFault::KeyNotYcc => "a key of Y, Cb and Cr",
            JobFault::BadWipe => "P and S of at most the width, or for rows the height",
            JobFault::NotRgb => "a frame of R, G and B",
            JobFault::NotYcc444 => "a frame of Y, Cb and Cr at each column",
            JobFault::WrongInputCount => "one receiver, for a wipe two and for key three",
            JobFault::BadGain => "a gain of at most 16384",
        }
    }
}

impl From<AllocError> for JobFault {
    ghost use Rattle.key_mix.specs.declared.faults.JobFault.TheVariants.{NoMemory};

    ghost from_gives = { λ _ e. e ≡ NoMemory };

    fn from(_error: AllocError) -> JobFault {
        JobFault::NoMemory
    }
}

impl From<ColourFault> for JobFault {
    ghost use Rattle.key_mix.specs.Faults.{colour_job_fault};

    ghost from_gives = { λ fault e. e ≡ colour_job_fault fault };

    fn from(fault: ColourFault) -> JobFault {
        match fault {
            ColourFault::NoMemory => JobFault::NoMemory,
            ColourFault::NotRgb => JobFault::NotRgb,
            ColourFault::NotYcc444 => JobFault::NotYcc444,
        }
    }
}

/// Why a job's picture wasn't sent.
#[derive(Clone, Copy, Debug, PartialEq, Eq, Error)]
pub enum SendJobFault {
    /// The job is refused, or memory was wanted for its picture.
    #[error("there is no picture: {0}")]
    Job(JobFault),
    /// The greatest size of a packet is below 20 octets and a pgroup of the job's picture, or above
    /// 9000.
    #[error("the greatest size of a packet is below 20 octets and a pgroup, or above 9000")]
    BadPacketSize,
    /// The sink failed: it took the first `sent` datagrams of the picture, and no more.
    #[error("the sink failed after {sent} datagrams of the picture")]
    Sink {
        /// How many datagrams the sink took, fewer than the picture has.
        sent: u32,
    },
}

impl SendJobFault {
    ghost use Rattle.key_mix.specs.Faults.{send_job_fault_name};

    /// Its bare name, without what the job's or the sink's fault says.
    pub fn name(self) -> &'static str
        ensures { result.now ≡ send_job_fault_name self }
    {
        match self {
            SendJobFault::Job(_) => "Job",
            SendJobFault::BadPacketSize => "BadPacketSize",
            SendJobFault::Sink { .. } => "Sink",
        }
    }
}

impl From<AllocError> for SendJobFault {
    ghost use Rattle.key_mix.specs.declared.faults.JobFault.TheVariants.{NoMemory};
    ghost use Rattle.key_mix.specs.declared.faults.SendJobFault.TheVariants.{Job};

    ghost from_gives = { λ _ e. e ≡ Job NoMemory };

    fn from(_error: AllocError) -> SendJobFault {
        SendJobFault::Job(JobFault::NoMemory)
    }
}

impl From<JobFault> for SendJobFault {
    ghost use Rattle.key_mix.specs.declared.faults.SendJobFault.TheVariants.{Job};

    ghost from_gives = { λ fault e. e ≡ Job fault };

    fn from(fault: JobFault) -> SendJobFault {
        SendJobFault::Job(fault)
    }
}

impl From<PlanFault> for SendJobFault {
    ghost use Rattle.key_mix.specs.Faults.{plan_job_fault};

    ghost from_gives = { λ fault e. e ≡ plan_job_fault fault };

    fn from(fault: PlanFault) -> SendJobFault {
        match fault {
            PlanFault::NoMemory => SendJobFault::Job(JobFault::NoMemory),
            PlanFault::BadPacketSize => SendJobFault::BadPacketSize,
        }
    }
}

impl From<SendFault> for SendJobFault {
    ghost use Rattle.key_mix.specs.declared.faults.SendJobFault.TheVariants.{Sink};

    ghost from_gives = { λ fault e. e ≡ Sink fault.sent };

    fn from(fault: SendFault) -> SendJobFault {
        SendJobFault::Sink { sent: fault.sent }
    }
}
