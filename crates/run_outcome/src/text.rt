//! Texts that are read whole, and SDP among them.
ghost use Rattle.std.specs.Prelude.{◌≡◌, ◌≤◌, ◌<◌, ◌∷◌, ◌++◌, [], length, vec_len, IfErr, IfOk};
ghost use Rattle.std.specs.Prelude.{MatchOption};
ghost use Rattle.st_format.specs.History.{GrewFrom, IsRead};
ghost use Rattle.run_outcome.specs.Fault.{Accounts, IfRefused, counts, failures_in};
ghost use Rattle.run_outcome.specs.Moments.{WasRead};
ghost use Rattle.run_outcome.specs.TextRefusals.{IsTextOfRun, IsTextRefusal, SaysCaptureText};
ghost use Rattle.run_outcome.specs.TextRefusals.{SaysText, WantsText};
ghost use Rattle.run_outcome.specs.Refusing.{OfRefusal};
ghost use Rattle.run_outcome.specs.Text.{GivesFew, GivesMore, GivesText};

use crate::fault::Fault;
use crate::refusal::Refusal;
use sdp_format::read_located;
use st_format::{ByteSource, MOST_DATAGRAM, read_whole};
use std::alloc::{AllocError, Allocator};

/// How many octets a script has at most, and an SDP text that opens a receiver (own): 16 MiB.
pub const MOST_TEXT: usize = 16_777_216;

/// Reads an SDP text for a capture, and finds that it is one. A longer text than a capture may have
/// is refused so.
pub fn read_checked<A: Allocator + Copy, S: ByteSource>(
    alloc: A,
    source: &mut S,
    too_long: Refusal,
) -> Result<Vec<u8, A>, Fault>
    ensures read { IfOk result (λ said. GivesText 65535 (S.gave source.old) (S.gave source.new)
        (S.ended source.new) said.items) }
    ensures says { IfOk result (λ _. SaysCaptureText
        (IsRead (S.gave source.old) (S.gave source.new) (S.ended source.new))) }
    ensures refusal { IfErr result (λ f. OfRefusal f (IsTextRefusal too_long
        (IsRead (S.gave source.old) (S.gave source.new) (S.ended source.new)))) }
    // A text that is too long wants no memory.
    ensures memory { IfErr result (λ f. f ≡ Fault.Memory
        → GivesFew 65535 (S.gave source.old) (S.gave source.new)) }
    ensures grown { GrewFrom (S.gave source.old) (S.gave source.new) }
    ensures failures { Accounts result (counts (S.failures source.old) (S.failures source.new)
        ∷ []) }
{
    let Some(said) = read_text(alloc, source, MOST_DATAGRAM)? else {
        return Err(Fault::Refused(too_long));
    };
    read_located(alloc, &said)?;
    Ok(said)
}

/// Reads the SDP text of a capture that is sent, as [`read_checked`] does, where a source of one is
/// given; else the text is empty.
pub fn read_if_given<A: Allocator + Copy, S: ByteSource>(
    alloc: A,
    sdp: &mut Option<S>,
) -> Result<Vec<u8, A>, Fault>
    ensures few { IfOk result (λ said. vec_len said ≤ 65535) }
    ensures says { IfOk result (λ said. SaysText S.gave S.ended sdp.old sdp.new said.items) }
    ensures refusal { IfErr result (λ f. OfRefusal f
        (IsTextOfRun (WasRead S.gave S.ended) sdp.old sdp.new)) }
    // Without a source, and for a text that is too long, no memory is wanted.
    ensures memory { IfErr result (λ f. f ≡ Fault.Memory → WantsText S.gave sdp.old sdp.new) }
    ensures failures { Accounts result (counts (failures_in S.failures sdp.old)
        (failures_in S.failures sdp.new) ∷ []) }
{
    match sdp {
        None => Ok(Vec::new(alloc)),
        Some(source) => match read_checked(alloc, source, Refusal::SendSdp) {
            Ok(said) => Ok(said),
            Err(fault) => Err(fault),
        },
    }
}

/// Reads a source to its end, and answers what it gave, or none where that is more than so many
/// octets.
pub fn read_text<A: Allocator, S: ByteSource>(
    alloc: A,
    source: &mut S,
    most: usize,
) -> Result<Option<Vec<u8, A>>, Fault>
    requires { most ≤ 16777216 }
    ensures read { IfOk result (λ said. MatchOption said
        (GivesMore most (S.gave source.old) (S.gave source.new))
        (λ text. GivesText most (S.gave source.old) (S.gave source.new) (S.ended source.new)
        text.items)) }
    ensures grown { GrewFrom (S.gave source.old) (S.gave source.new) }
    ensures unrefused { IfErr result (λ f. IfRefused f ⊥) }
    // Behind more octets than so many no memory is wanted.
    ensures memory { IfErr result (λ f. f ≡ Fault.Memory
        → GivesFew most (S.gave source.old) (S.gave source.new)) }
    ensures failures { Accounts result (counts (S.failures source.old) (S.failures source.new)
        ∷ []) }
{
    let octets = read_past(alloc, source, most)?;
    if octets.len() <= most {
        Ok(Some(octets))
    } else {
        Ok(None)
    }
}

/// Reads a source to its end, or until it gave more than so many octets.
pub fn read_past<A: Allocator, S: ByteSource>(
    alloc: A,
    source: &mut S,
    most: usize,
) -> Result<Vec<u8, A>, Fault>
    requires { most ≤ 16777216 }
    ensures given { IfOk result (λ octets. S.gave source.new ≡ S.gave source.old ++ octets.items) }
    ensures whole { IfOk result (λ octets. length octets.items ≤ most → S.ended source.new) }
    ensures grown { GrewFrom (S.gave source.old) (S.gave source.new) }
    ensures unrefused { IfErr result (λ f. IfRefused f ⊥) }
    // Behind more octets than so many no memory is wanted.
    ensures memory { IfErr result (λ f. f ≡ Fault.Memory
        → GivesFew most (S.gave source.old) (S.gave source.new)) }
    ensures failures { Accounts result (counts (S.failures source.old) (S.failures source.new)
        ∷ []) }
{
    let mut octets = Vec::new(alloc);
    let mut piece = [0u8; 4096];
    'pieces: while octets.len() <= most {
        // (room comes first: once too much was read, no memory is wanted)
        octets.reserve(piece.len())?;
        let n = read_whole(source, &mut piece)?;
        octets.extend_from_slice(&piece[..n])?;
        if n < piece.len() {
            return Ok(octets);
        }
    }
    Ok(octets)
}

/// Room for the octets of any datagram, and of a capture's text.
pub fn room<A: Allocator>(alloc: A) -> Result<Vec<u8, A>, AllocError>
    ensures { IfOk result (λ room. vec_len room ≡ 65535) }
{
    vec![in alloc; 0u8; MOST_DATAGRAM]
}
