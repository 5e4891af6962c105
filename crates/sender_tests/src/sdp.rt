//! *camera-sdp*: what `sdp` does not print, where memory is wanted. Its texts are among the
//! program's tests.
use sdp_format::{Located, Range, Sdp, SdpFault, fmtp_text, read_located, read_sdp};
use st_format::{Depth, Sampling};
use std::alloc::{Allocator, Global};
use test_kit::camera::{CAMERA, LINE};

/// Whether all that an SDP says is what the camera's text says.
fn is_camera(sdp: &Sdp) -> bool {
    let format = sdp.format;
    let is_format = format.sampling == Sampling::Ycc422
        && format.depth == Depth::D10
        && (format.width, format.height) == (1920, 1080)
        && (format.n, format.d) == (60000, 1001);
    is_format
        && sdp.ports.as_slice() == [5004, 5006].as_slice()
        && sdp.payload_type == 112
        && sdp.range == Range::Narrow
        && sdp.colorimetry.as_slice() == b"BT709".as_slice()
}

/// Whether `read_sdp` and `fmtp_text` give the camera's fields and its line over an allocator, or
/// `None` where one of them wants memory.
pub fn is_written<A: Allocator + Copy>(alloc: A) -> Option<bool> {
    match read_sdp(alloc, CAMERA.as_bytes()) {
        Ok(sdp) => match fmtp_text(alloc, &sdp) {
            Ok(line) => Some(is_camera(&sdp) && line.as_slice() == LINE.as_bytes()),
            Err(SdpFault::NoMemory) => None,
            Err(_) => Some(false),
        },
        Err(SdpFault::NoMemory) => None,
        Err(_) => Some(false),
    }
}

/// The same of `read_located` alone, which has no place in the text where memory is wanted.
pub fn is_located<A: Allocator + Copy>(alloc: A) -> Option<bool> {
    match read_located(alloc, CAMERA.as_bytes()) {
        Ok(sdp) => Some(is_camera(&sdp)),
        Err(
            Located {
                fault: SdpFault::NoMemory,
                place: None,
            },
        ) => None,
        Err(_) => Some(false),
    }
}
