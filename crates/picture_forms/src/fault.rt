//! Why a picture was not read or not written.
ghost use Rattle.std.specs.Prelude.{◌≡◌};
ghost use Rattle.picture_forms.specs.declared.fault.FormFault.TheVariants.{NoMemory, Device};
ghost use Rattle.picture_forms.specs.Faults.{form_fault_name, form_fault_number};

use st_format::DeviceFault;
use std::alloc::AllocError;
use thiserror::Error;

/// The first fault in the order of a form's octets, or one of the machine that came before it.
#[derive(Clone, Copy, Debug, PartialEq, Eq, Error)]
pub enum FormFault {
    /// The allocator refused memory.
    #[error("the memory was refused")]
    NoMemory = 1,
    /// The device failed. Why is its own matter.
    #[error("the device failed")]
    Device = 2,
    /// The first octets are those of another form.
    #[error("the first octets are those of another form")]
    BadMagic = 3,
    /// A header isn't in the form's grammar.
    #[error("a header isn't in the form's grammar")]
    BadHeader = 4,
    /// A header of the grammar, of pictures that the project has not: 4:2:0, grey or interlaced.
    #[error("the pictures are of a kind that is not read")]
    UnsupportedForm = 5,
    /// Width, height or rate is outside the limits of a format.
    #[error("width, height or rate is outside the limits")]
    BadFormat = 6,
    /// The octets end within a header or a picture.
    #[error("the octets end within a header or a picture")]
    Truncated = 7,
    /// A value has more bits than a sample of the format.
    #[error("a value has more bits than a sample of the format")]
    ValueTooLarge = 8,
}

impl FormFault {
    /// The fault's number, 1 to 8.
    pub fn number(self) -> u8
        ensures { result ≡ form_fault_number self }
    {
        self as u8
    }

    /// Its bare name, as the texts of the program have it.
    pub fn name(self) -> &'static str
        ensures { result.now ≡ form_fault_name self }
    {
        match self {
            FormFault::NoMemory => "NoMemory",
            FormFault::Device => "Device",
            FormFault::BadMagic => "BadMagic",
            FormFault::BadHeader => "BadHeader",
            FormFault::UnsupportedForm => "UnsupportedForm",
            FormFault::BadFormat => "BadFormat",
            FormFault::Truncated => "Truncated",
            FormFault::ValueTooLarge => "ValueTooLarge",
        }
    }
}

impl From<DeviceFault> for FormFault {
    ghost from_gives = { λ _ fault. fault ≡ Device };

    fn from(_: DeviceFault) -> FormFault {
        FormFault::Device
    }
}

impl From<AllocError> for FormFault {
    ghost from_gives = { λ _ fault. fault ≡ NoMemory };

    fn from(_: AllocError) -> FormFault {
        FormFault::NoMemory
    }
}
