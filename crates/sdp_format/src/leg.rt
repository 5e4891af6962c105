//! What one section says.
ghost use Rattle.std.specs.Prelude.{◌≡◌, ◌≤◌};
ghost use Rattle.sdp_format.specs.Views.{items_in};
ghost use Rattle.sdp_format.specs.Reading.{result_map, format_of};
ghost use Rattle.st_format.specs.Fields.{fields_of};

use crate::fault::SdpFault;
use crate::items::rate;
use crate::lines::{begins, is_word};
use crate::parameters::{Parameters, is_interlaced, text_of};
use st_format::{Depth, Format, Sampling, read_number};
use std::alloc::Allocator;

#[tactic(auto, unfolding(crate::specs::Reading::format_of))]
pub(crate) fn format_of<A: Allocator>(list: &Parameters<'_, A>) -> Result<Format, SdpFault>
    ensures { result_map fields_of result ≡ format_of (items_in list.now) }
{
    let sampling = text_of(list, b"sampling");
    let sampling = Sampling::of_word(sampling).ok_or(SdpFault::UnsupportedSampling)?;
    let depth = Depth::of_word(text_of(list, b"depth")).ok_or(SdpFault::UnsupportedDepth)?;
    if is_interlaced(list) {
        return Err(SdpFault::Interlaced);
    }
    if !is_word(text_of(list, b"PM"), b"2110GPM") {
        return Err(SdpFault::UnsupportedPacking);
    }
    if !begins(b"ST2110-20:", text_of(list, b"SSN")) {
        return Err(SdpFault::BadSsn);
    }
    let width = read_number(text_of(list, b"width")).ok_or(SdpFault::BadParameter)?;
    let height = read_number(text_of(list, b"height")).ok_or(SdpFault::BadParameter)?;
    let (n, d) = rate(text_of(list, b"exactframerate")).ok_or(SdpFault::BadParameter)?;
    match Format::new(sampling, depth, width, height, n, d) {
        Ok(format) => Ok(format),
        Err(_) => Err(SdpFault::BadFormat),
    }
}
