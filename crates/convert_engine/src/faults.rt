//! Faults of pictures in forms of other tools, as those that end a run.
ghost use Rattle.std.specs.Prelude.{◌≡◌};
ghost use Rattle.convert_engine.specs.Converting.{form_fault};

use picture_forms::FormFault;
use run_outcome::{Fault, Refusal};

/// A form's fault as one that ends a run: want of memory and a device's are none of the form's.
pub fn of_form(fault: FormFault) -> Fault
    ensures { result ≡ form_fault fault }
{
    match fault {
        FormFault::Device => Fault::Device,
        FormFault::NoMemory => Fault::Memory,
        _ => Fault::Refused(Refusal::Form(fault)),
    }
}
