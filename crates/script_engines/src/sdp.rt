//! The engine of `sdp`.
ghost use Rattle.std.specs.Prelude.{◌≡◌, ◌⊎◌, ◌∷◌, [], IfErr, IfOk, OnErr, OnOk};
ghost use Rattle.st_format.specs.History.{GrewFrom};
ghost use Rattle.run_outcome.specs.Fault.{Accounts, IfRefused, counts};
ghost use Rattle.run_outcome.specs.Refusing.{OfRefusal};
ghost use Rattle.script_engines.specs.Reading.{DoesScript, IsRefusedFor, ReadsScript};
ghost use Rattle.script_engines.specs.Described.{DescribesPart, DescribesVideo, IsCanonicalOf};
ghost use Rattle.script_engines.specs.Described.{IsUndescribed, IsUndescribedText};

use crate::script::read_script;
use run_outcome::{Fault, Form};
use sdp_format::{fmtp_text, read_located};
use st_format::{ByteSink, ByteSource, write_whole};
use std::alloc::Allocator;

/// Reads the SDP text that the source gives, and writes its canonical fmtp line (RFC 8866; SMPTE ST
/// 2110-20, SDP).
///
/// # Errors
///
/// A refusal where the text is refused, or is longer than 16,777,216 octets (own: as a script, at
/// its line 1); and else that a device failed or memory was wanted.
pub fn describe<A, S, O>(alloc: A, source: &mut S, output: &mut O) -> Result<(), Fault>
where
    A: Allocator + Copy,
    S: ByteSource,
    O: ByteSink,
    ensures read { ReadsScript result (S.gave source.old) (S.gave source.new) (S.ended source.new) }
    ensures grown { GrewFrom (S.gave source.old) (S.gave source.new) }
    ensures failures { Accounts result (counts (S.failures source.old) (S.failures source.new)
        ∷ counts (O.failures output.old) (O.failures output.new) ∷ []) }
    ensures printed { OnOk result (DoesScript DescribesVideo (S.gave source.old) (S.gave source.new)
        (S.ended source.new) (O.took output.old) (O.took output.new)) }
    ensures refusal { IfErr result (λ f. OfRefusal f (IsRefusedFor IsUndescribed
        (S.gave source.old) (S.gave source.new) (S.ended source.new))) }
    ensures nothing { IfErr result (λ f. IfRefused f (O.took output.new ≡ O.took output.old)) }
    // Where a device failed or memory was wanted, nothing or a first part of it is printed.
    ensures cut { OnErr result ((O.took output.new ≡ O.took output.old)
        ⊎ DoesScript DescribesPart (S.gave source.old) (S.gave source.new)
        (S.ended source.new) (O.took output.old) (O.took output.new)) }
{
    let script = read_script(alloc, source)?;
    if script.is_cut {
        return Err(Form::TextEnd.refused_at(1));
    }
    let line = canonical_line(alloc, &script.octets)?;
    write_whole(output, &line)?;
    Ok(())
}

/// The canonical fmtp line of an SDP text, with its LF; or why the text describes no video.
fn canonical_line<A: Allocator + Copy>(alloc: A, text: &[u8]) -> Result<Vec<u8, A>, Fault>
    ensures device { Accounts result [] }
    ensures canonical { IfOk result (λ line. IsCanonicalOf text.now line.items) }
    ensures refused { IfErr result (λ fault. IsUndescribedText text.now fault) }
{
    let sdp = read_located(alloc, text)?;
    let Ok(mut line) = fmtp_text(alloc, &sdp) else {
        return Err(Fault::Memory);
    };
    match line.push(b'\n') {
        Ok(()) => Ok(line),
        Err(_) => Err(Fault::Memory),
    }
}
