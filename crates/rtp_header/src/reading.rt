//! Reading a header.
ghost use Rattle.std.specs.Prelude.{◌≡◌, ◌↔◌, ◌<◌, ℕ, length, IfErr, IfOk, IsErrOf, IsOkAnd};
ghost use Rattle.rtp_header.specs.Grammar.{IsRtp, Rtp};
ghost use Rattle.rtp_header.specs.Faults.{IsBadPadding, IsBadVersion, IsShortExtension};
ghost use Rattle.rtp_header.specs.Faults.{IsShortHeader};
ghost use Rattle.rtp_header.specs.Reading.{Gives, rest_behind, behind_extension, rtp_walk};
ghost use Rattle.rtp_header.specs.Reading.{without_padding};
ghost use Rattle.rtp_header.specs.Views.{seen_rtp};

use crate::header::{FIXED, RtpFault, RtpView, VERSION};

/// What stands behind `count` octets; `ShortExtension` where there are fewer.
fn skip(octets: &[u8], count: usize) -> Result<&[u8], RtpFault>
    ensures { Gives (λ x. x.now) result (rest_behind count octets.now) }
{
    if octets.len() < count {
        return Err(RtpFault::ShortExtension);
    }
    let (_, rest) = octets.split_at(count);
    Ok(rest)
}

/// What stands behind the extension, where there is one: its third and fourth octet count the words
/// of four octets behind them (RFC 3550, 5.3.1).
fn skip_extension(extended: bool, octets: &[u8]) -> Result<&[u8], RtpFault>
    ensures { Gives (λ x. x.now) result (behind_extension extended octets.now) }
{
    if !extended {
        return Ok(octets);
    }
    if octets.len() < 4 {
        return Err(RtpFault::ShortExtension);
    }
    let words = u16::from_be_bytes([octets[2], octets[3]]);
    skip(octets, 4 + 4 * words as usize)
}

/// What stands before the padding, where there is one: its last octet counts it (RFC 3550, 5.1).
fn strip_padding(padded: bool, octets: &[u8]) -> Result<&[u8], RtpFault>
    ensures { Gives (λ x. x.now) result (without_padding padded octets.now) }
{
    if !padded {
        return Ok(octets);
    }
    let Some(&last) = octets.last() else {
        return Err(RtpFault::BadPadding);
    };
    let count = last as usize;
    if count == 0 || octets.len() < count {
        return Err(RtpFault::BadPadding);
    }
    let (payload, _) = octets.split_at(octets.len() - count);
    Ok(payload)
}

/// What reading from the left gives: a first fault ends it.
#[tactic(auto, unfolding(crate::specs::Reading::rtp_walk))]
fn read(octets: &[u8]) -> Result<RtpView<'_>, RtpFault>
    ensures exact { Gives seen_rtp result (rtp_walk octets.now) }
{
    if octets.len() < FIXED {
        return Err(RtpFault::ShortHeader);
    }
    // The version in two bits, P, X, and CC in four.
    let first = octets[0];
    if first / 64 != VERSION {
        return Err(RtpFault::BadVersion);
    }
    let (_, rest) = octets.split_at(FIXED);
    let rest = skip(rest, 4 * (first % 16) as usize)?;
    let rest = skip_extension(first / 16 % 2 == 1, rest)?;
    let payload = strip_padding(first / 32 % 2 == 1, rest)?;
    Ok(RtpView {
        marker: octets[1] >= 128,
        payload_type: octets[1] % 128,
        sequence: u16::from_be_bytes([octets[2], octets[3]]),
        timestamp: u32::from_be_bytes([octets[4], octets[5], octets[6], octets[7]]),
        ssrc: u32::from_be_bytes([octets[8], octets[9], octets[10], octets[11]]),
        payload,
    })
}

/// What a datagram's octets say, and its payload, or the first fault (RFC 3550, 5.1 and 5.3.1).
///
/// # Errors
///
/// - `ShortHeader`: there are fewer than 12 octets.
/// - `BadVersion`: the version is not 2.
/// - `ShortExtension`: the octets end before the list of sources or the extension does.
/// - `BadPadding`: P is set, and the last octet is 0 or more than the octets behind the headers.
pub fn read_rtp(octets: &[u8]) -> Result<RtpView<'_>, RtpFault>
    // What is read is in the grammar.
    ensures found { IfOk result (λ v. IsRtp octets.now (seen_rtp v)) }
    // What is in the grammar is read so: it has one reading.
    ensures only { (r : Rtp) → IsRtp octets.now r → IsOkAnd result (λ v. seen_rtp v ≡ r) }
    // A fault comes only where nothing in the grammar fits.
    ensures none { IfErr result (λ _. (r : Rtp) → IsRtp octets.now r → ⊥) }
    // Each fault comes exactly where this stands in the octets.
    ensures short_header { IsErrOf result RtpFault.ShortHeader ↔ IsShortHeader octets.now }
    ensures bad_version { IsErrOf result RtpFault.BadVersion ↔ IsBadVersion octets.now }
    ensures short_extension { IsErrOf result RtpFault.ShortExtension ↔ IsShortExtension octets.now }
    ensures bad_padding { IsErrOf result RtpFault.BadPadding ↔ IsBadPadding octets.now }
    // The answer as a walk over the octets, for the walks that go on from it.
    ensures exact { Gives seen_rtp result (rtp_walk octets.now) }
{
    read(octets)
}
