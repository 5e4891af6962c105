//! Reading a portable pixmap.
ghost use Rattle.std.specs.Prelude.{◌∷◌, [], ℕ, List, IfErr, IfOk};
ghost use Rattle.st_format.specs.History.{IsRead};
ghost use Rattle.picture_forms.specs.Faults.{CountsDevice, IfContent};
ghost use Rattle.run_outcome.specs.Fault.{Accounts, counts};
ghost use Rattle.run_outcome.specs.Refusing.{OfRefusal};
ghost use Rattle.convert_engine.specs.Converting.{IsInputRefusal, SaysInput};
ghost use Rattle.convert_engine.specs.Inputs.{IsInPixmap, IsPixmapFault};
ghost use Rattle.convert_engine.specs.declared.converting.InputForm.TheVariants.{Pixmap};

use crate::faults::of_form;
use picture_forms::{FormFault, read_pixmap_head, read_pixmap_raster};
use run_outcome::Fault;
use st_format::{ByteSource, Picture, Rate};
use std::alloc::Allocator;

/// Reads a portable pixmap as a picture of this rate. What is behind it is not read.
///
/// # Errors
///
/// A refusal (`Refusal::Form`) by its first fault, and else that a device or the allocator failed.
pub(crate) fn read_pixmap<A: Allocator, S: ByteSource>(
    alloc: A,
    source: &mut S,
    rate: Rate,
) -> Result<Picture<A>, Fault>
    ensures says { IfOk result (λ p. SaysInput (Pixmap rate)
        (IsRead (S.gave source.old) (S.gave source.new) (S.ended source.new)) p) }
    ensures refusal { IfErr result (λ f. OfRefusal f (IsInputRefusal (Pixmap rate)
        (IsRead (S.gave source.old) (S.gave source.new) (S.ended source.new)))) }
    ensures failures { Accounts result (counts (S.failures source.old) (S.failures source.new)
        ∷ []) }
{
    match read_picture(alloc, source, rate.n, rate.d) {
        Ok(picture) => Ok(picture),
        Err(fault) => Err(of_form(fault)),
    }
}

/// Reads a pixmap as a picture of a rate of `n / d`.
fn read_picture<A: Allocator, S: ByteSource>(
    alloc: A,
    source: &mut S,
    n: u32,
    d: u32,
) -> Result<Picture<A>, FormFault>
    ensures says { IfOk result (λ p. (octets : List ℕ)
        → IsRead (S.gave source.old) (S.gave source.new) (S.ended source.new) octets
        → IsInPixmap n d octets p) }
    ensures fault { IfErr result (λ f. IfContent f ((octets : List ℕ)
        → IsRead (S.gave source.old) (S.gave source.new) (S.ended source.new) octets
        → IsPixmapFault n d octets f)) }
    ensures counted { CountsDevice (S.failures source.old) (S.failures source.new) result }
{
    let format = read_pixmap_head(source, n, d)?;
    read_pixmap_raster(alloc, source, &format)
}
