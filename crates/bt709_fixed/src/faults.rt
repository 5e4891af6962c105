//! Why there is no picture of other components.
ghost use Rattle.std.specs.Prelude.{◌≡◌};
ghost use Rattle.bt709_fixed.specs.declared.faults.ColourFault.TheVariants.{NoMemory};

use std::alloc::AllocError;
use thiserror::Error;

/// Why there is no picture of other components.
#[derive(Clone, Copy, Debug, PartialEq, Eq, Error)]
pub enum ColourFault {
    /// The allocator refused the memory for the picture.
    #[error("the memory was refused")]
    NoMemory = 1,
    /// The picture isn't of R, G and B.
    #[error("the picture isn't of R, G and B")]
    NotRgb,
    /// The picture isn't of Y, Cb and Cr at each column.
    #[error("the picture isn't of Y, Cb and Cr at each column")]
    NotYcc444,
}

impl ColourFault {
    ghost use Rattle.bt709_fixed.specs.Faults.{colour_fault_name, colour_fault_number};

    /// Its number: 1 to 3. `NoMemory` is tested last.
    pub fn number(self) -> u8
        ensures { result ≡ colour_fault_number self }
    {
        self as u8
    }

    /// Its bare name, as the texts of the program have it.
    pub fn name(self) -> &'static str
        ensures { result.now ≡ colour_fault_name self }
    {
        match self {
            ColourFault::NoMemory => "NoMemory",
            ColourFault::NotRgb => "NotRgb",
            ColourFault::NotYcc444 => "NotYcc444",
        }
    }
}

impl From<AllocError> for ColourFault {
    ghost from_gives = { λ _ e. e ≡ NoMemory };

    fn from(_error: AllocError) -> ColourFault {
        ColourFault::NoMemory
    }
}
