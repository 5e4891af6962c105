//! The reader of whole texts.
ghost use Rattle.std.specs.Prelude.{◌≡◌, ◌≢◌, ◌≤◌, ◌<◌, ◌∷◌, [], None, Some, length, ◌⊎◌, IfOk};
ghost use Rattle.std.specs.Prelude.{IfErr, IsErrOf, IsOk, IfSome};
ghost use Rattle.std.specs.Option.{option_copied};
ghost use Rattle.sdp_format.specs.Bytes.{lines};
ghost use Rattle.sdp_format.specs.Views.{items_in, description};
ghost use Rattle.sdp_format.specs.declared.fault.SdpFault.TheVariants.{NoMemory, NoVideo};
ghost use Rattle.sdp_format.specs.Sections.{video_sections};
ghost use Rattle.sdp_format.specs.Reading.{GivesUnlessMemory, WantsMemory, leg_of, listing_walk};
ghost use Rattle.sdp_format.specs.Reading.{said_in, same_leg, same_range, section_walk};
ghost use Rattle.sdp_format.specs.Reading.{sections_walk, result_map, text_walk};
ghost use Rattle.sdp_format.specs.Grammar.{IsDescribed, IsTextFault};
ghost use Rattle.sdp_format.specs.Naming.{items, range_or};
ghost use Rattle.sdp_format.specs.ReadLeg.{leg_seen, listed_seen, section_of, section_at};
ghost use Rattle.sdp_format.specs.Places.{IsPlace, without_place, without_section};

use crate::fault::SdpFault;
use crate::items::{colorimetry, has_bad, range_named};
use crate::leg::format_of;
use crate::lines::{first_attribute, is_raw90000, is_word, media_of, next_video};
use crate::parameters::{Parameters, is_missing, parameters_of, text_of, value_of};
use crate::place::{Located, place_of_stop};
use crate::sdp::{Leg, Listed, Range, Sdp, Stop, VideoSection};
use arrayvec::ArrayVec;
use std::alloc::Allocator;

/// The range of a word, and NARROW where there is none.
fn range_or(text: Option<&[u8]>) -> Option<Range>
    ensures { result ≡ range_or (option_copied text.entry) }
{
    match text {
        Some(text) => range_named(text),
        None => Some(Range::Narrow),
    }
}

/// What items of different names say.
#[tactic(auto, unfolding(crate::specs::Reading::said_in))]
fn said_in<A: Allocator>(payload_type: u8, list: &Parameters<'_, A>) -> Result<Leg, SdpFault>
    requires { payload_type ≤ 127 }
    ensures { result_map leg_seen result ≡ said_in payload_type (items_in list.now) }
{
    if is_missing(list) {
        return Err(SdpFault::MissingParameter);
    }
    let format = format_of(list)?;
    let range = range_or(value_of(list, b"RANGE")).ok_or(SdpFault::BadParameter)?;
    let colorimetry = colorimetry(text_of(list, b"colorimetry")).ok_or(SdpFault::BadParameter)?;
    Ok(Leg {
        payload_type,
        format,
        range,
        colorimetry,
    })
}

#[tactic(auto, unfolding(crate::specs::Reading::leg_of))]
fn leg_of<A: Allocator + Copy>(alloc: A, payload_type: u8, text: &[u8]) -> Result<Leg, SdpFault>
    requires { payload_type ≤ 127 }
    ensures { GivesUnlessMemory leg_seen result (leg_of payload_type (items text.now)) }
{
    let list = parameters_of(alloc, text)?;
    said_in(payload_type, &list)
}

/// The port and the payload type of a section, and the text of its items, none of them bad.
#[tactic(auto, unfolding(crate::specs::Reading::listing_walk))]
fn listed<'a>(media: &[u8], left: Option<&'a [u8]>) -> Result<Listed<'a>, SdpFault>
    ensures exact { result_map listed_seen result
        ≡ listing_walk (section_of media.now (option_copied left.entry)) }
    ensures no_memory { IfErr result (λ e. e ≢ NoMemory) }
{
    let (port, payload_type) = media_of(media).ok_or(SdpFault::BadMediaLine)?;
    let map = first_attribute(b"a=rtpmap:", payload_type, left).ok_or(SdpFault::NoRtpmap)?;
    if !is_raw90000(map) {
        return Err(SdpFault::NotRaw90000);
    }
    let text = first_attribute(b"a=fmtp:", payload_type, left).ok_or(SdpFault::NoFmtp)?;
    if has_bad(text) {
        return Err(SdpFault::BadParameter);
    }
    Ok(Listed {
        port,
        payload_type,
        text,
    })
}

/// The port of a section, and what the section says.
#[tactic(auto, unfolding(crate::specs::Reading::section_walk))]
fn section<A: Allocator + Copy>(
    alloc: A,
    media: &[u8],
    left: Option<&[u8]>,
) -> Result<(u16, Leg), SdpFault>
    ensures exact { GivesUnlessMemory (λ x. (x.0, leg_seen x.1)) result
        (section_walk (section_of media.now (option_copied left.entry))) }
    ensures found { IsOk result
        → IsOk (listing_walk (section_of media.now (option_copied left.entry))) }
    ensures memory { IsErrOf result NoMemory
        → IsOk (listing_walk (section_of media.now (option_copied left.entry))) }
{
    let listed = listed(media, left)?;
    let leg = leg_of(alloc, listed.payload_type, listed.text)?;
    Ok((listed.port, leg))
}

fn same_range(a: Range, b: Range) -> bool
    ensures { result ≡ same_range a b }
{
    match (a, b) {
        (Range::Narrow, Range::Narrow) => true,
        (Range::FullProtect, Range::FullProtect) => true,
        (Range::Full, Range::Full) => true,
        _ => false,
    }
}

#[tactic(auto, unfolding(crate::specs::Reading::same_leg))]
fn same_leg(a: &Leg, b: &Leg) -> bool
    ensures { result ≡ same_leg (leg_seen a.now) (leg_seen b.now) }
{
    a.payload_type == b.payload_type
        && a.format.same(&b.format)
        && same_range(a.range, b.range)
        && is_word(a.colorimetry.as_slice(), b.colorimetry.as_slice())
}

fn described(ports: ArrayVec<u16, 2>, leg: Leg) -> Sdp
    requires { 0 < length ports.items }
    ensures { description result ≡ record { ports = ports.items; leg = leg_seen leg } }
{
    let Leg {
        payload_type,
        format,
        range,
        colorimetry,
    } = leg;
    Sdp {
        ports,
        payload_type,
        format,
        range,
        colorimetry,
    }
}

/// The port of a section, and what the section says; a fault comes with the section.
fn said_by<'a, A: Allocator + Copy>(
    alloc: A,
    from: VideoSection<'a>,
) -> Result<(u16, Leg), Stop<'a>>
    ensures exact { GivesUnlessMemory (λ x. (x.0, leg_seen x.1)) (without_section result)
        (section_walk (section_at from.entry)) }
    ensures found { IsOk result → IsOk (listing_walk (section_at from.entry)) }
    ensures memory { IsErrOf (without_section result) NoMemory
        → IsOk (listing_walk (section_at from.entry)) }
{
    match section(alloc, from.media, from.left) {
        Ok(said) => Ok(said),
        Err(fault) => Err(Stop {
            fault,
            section: Some(from),
        }),
    }
}

/// A text of one section: its port, and what it says.
#[tactic(auto, unfolding(crate::specs::Reading::sections_walk))]
fn one<'a, A: Allocator + Copy>(alloc: A, section: VideoSection<'a>) -> Result<Sdp, Stop<'a>>
    ensures exact { GivesUnlessMemory description (without_section result)
        (sections_walk (section_at section.entry ∷ [])) }
    ensures memory { IsErrOf (without_section result) NoMemory
        → IsOk (listing_walk (section_at section.entry)) }
{
    let (port, leg) = said_by(alloc, section)?;
    let mut ports = ArrayVec::new();
    ports.push(port);
    Ok(described(ports, leg))
}

/// A text of two sections, which have to say the same.
#[tactic(auto, unfolding(crate::specs::Reading::sections_walk))]
fn two<'a, A: Allocator + Copy>(
    alloc: A,
    first: VideoSection<'a>,
    second: VideoSection<'a>,
) -> Result<Sdp, Stop<'a>>
    ensures exact { GivesUnlessMemory description (without_section result)
        (sections_walk (section_at first.entry ∷ section_at second.entry ∷ [])) }
    ensures memory { IsErrOf (without_section result) NoMemory
        → IsOk (listing_walk (section_at first.entry)) }
{
    let (port, leg) = said_by(alloc, first)?;
    let (second_port, second_leg) = said_by(alloc, second)?;
    if !same_leg(&leg, &second_leg) {
        return Err(Stop {
            fault: SdpFault::LegsDiffer,
            section: Some(second),
        });
    }
    let mut ports = ArrayVec::new();
    ports.push(port);
    ports.push(second_port);
    Ok(described(ports, leg))
}

/// A text, from its first line on.
#[tactic(auto, unfolding(crate::specs::Reading::text_walk, crate::specs::Reading::sections_walk))]
fn read_text<'a, A: Allocator + Copy>(alloc: A, text: &'a [u8]) -> Result<Sdp, Stop<'a>>
    ensures exact { GivesUnlessMemory description (without_section result) (text_walk text.now) }
    ensures memory { IsErrOf (without_section result) NoMemory
        → WantsMemory (video_sections (lines text.now)) }
{
    let Some(first) = next_video(Some(text)) else {
        return Err(Stop {
            fault: SdpFault::NoVideo,
            section: None,
        });
    };
    let Some(second) = next_video(first.left) else {
        return one(alloc, first);
    };
    if let Some(third) = next_video(second.left) {
        return Err(Stop {
            fault: SdpFault::TooManyLegs,
            section: Some(third),
        });
    }
    two(alloc, first, second)
}

/// Reads what an SDP text says of the studio video that it announces (RFC 8866, 5 and 6; SMPTE ST
/// 2110-20, SDP).
///
/// A text has one or two video sections; two are the legs of one video and say the same but for
/// their ports. The error is the first fault of the text: `NoVideo`, `TooManyLegs`, then the faults
/// 4 to 16 of the first section, those of the second, and `LegsDiffer`. `NoMemory` comes where a
/// growth was refused, in place of an answer that would come later than the tests that take no
/// memory: those up to `BadParameter` of the first section.
pub fn read_sdp<A: Allocator + Copy>(alloc: A, text: &[u8]) -> Result<Sdp, SdpFault>
    ensures said { IfOk result
        (λ sdp. IsDescribed (video_sections (lines text.now)) (description sdp)) }
    ensures fault { IfErr result
        (λ f. (f ≡ NoMemory) ⊎ IsTextFault (video_sections (lines text.now)) f) }
    ensures memory { IsErrOf result NoMemory → WantsMemory (video_sections (lines text.now)) }

    // The same by the walk, which tells one answer for each text.
    ensures exact { GivesUnlessMemory description result (text_walk text.now) }
{
    match read_text(alloc, text) {
        Ok(sdp) => Ok(sdp),
        Err(stop) => Err(stop.fault),
    }
}

/// Reads what an SDP text says, as [`read_sdp`] does: it reads the same texts as the same, and the
/// error of any other text has the same fault. With the fault comes the place in the text that has
/// it. Memory is wanted for what `read_sdp` wants it for, and for nothing else.
pub fn read_located<A: Allocator + Copy>(alloc: A, text: &[u8]) -> Result<Sdp, Located>
    ensures said { IfOk result
        (λ sdp. IsDescribed (video_sections (lines text.now)) (description sdp)) }
    ensures fault { IfErr result (λ l. (l.fault ≡ NoMemory)
        ⊎ IsTextFault (video_sections (lines text.now)) l.fault) }
    ensures place { IfErr result (λ l. IfSome l.place (λ place. IsPlace text.now place)) }
    ensures placed { IfErr result (λ l. l.place ≡ None
        → (l.fault ≡ NoMemory) ⊎ (l.fault ≡ NoVideo)) }
    ensures memory { IsErrOf (without_place result) NoMemory
        → WantsMemory (video_sections (lines text.now)) }

    // The same by the walk, which tells one answer for each text.
    ensures exact { GivesUnlessMemory description (without_place result) (text_walk text.now) }
{
    match read_text(alloc, text) {
        Ok(sdp) => Ok(sdp),
        Err(stop) => Err(Located {
            fault: stop.fault,
            place: place_of_stop(text, stop),
        }),
    }
}
