//! F1, its datagrams, and what is counted of its frames.
use frame_assembly::Counts;
use path_receiver::Receiver;
use st_format::{Depth, Format, FormatFault, Sampling};
use std::alloc::Allocator;

/// *first-datagram*'s datagram: the upper row of P0.
pub const UPPER: &[u8] =
    b"\x80\xE0\0\x01\0\0\x03\x84\0\0\0\x01\0\0\0\x08\0\0\0\0\x80\x10\x80\x11\x80\x12\x80\x13";

/// *contested*'s second datagram: the upper row with another second value of luma.
pub const ANOTHER: &[u8] =
    b"\x80\xE0\0\x01\0\0\x03\x84\0\0\0\x01\0\0\0\x08\0\0\0\0\x80\x20\x80\x11\x80\x12\x80\x13";

/// The lower row of P0, with the next number.
pub const LOWER: &[u8] =
    b"\x80\xE0\0\x02\0\0\x03\x84\0\0\0\x01\0\0\0\x08\0\x01\0\0\x80\x14\x80\x15\x80\x16\x80\x17";

/// The twelve kinds of samples: each sampling at each depth.
pub const KINDS: [(Sampling, Depth); 12] = [
    (Sampling::Ycc422, Depth::D8),
    (Sampling::Ycc422, Depth::D10),
    (Sampling::Ycc422, Depth::D12),
    (Sampling::Ycc422, Depth::D16),
    (Sampling::Ycc444, Depth::D8),
    (Sampling::Ycc444, Depth::D10),
    (Sampling::Ycc444, Depth::D12),
    (Sampling::Ycc444, Depth::D16),
    (Sampling::Rgb, Depth::D8),
    (Sampling::Rgb, Depth::D10),
    (Sampling::Rgb, Depth::D12),
    (Sampling::Rgb, Depth::D16),
];

/// F1: 4:2:2, 8 bits, 4 by 2, 60 frames a second.
pub fn small() -> Result<Format, FormatFault> {
    Format::new(Sampling::Ycc422, Depth::D8, 4, 2, 60, 1)
}

/// Counts of these numbers, as a constant may have them.
pub const fn counted(present: u64, missing: u64, contested: u64) -> Counts {
    Counts {
        present,
        missing,
        contested,
    }
}

/// How many samples of the frame of a timestamp are present, missing and contested.
pub fn counts<A: Allocator>(receiver: &Receiver<A>, timestamp: u32) -> Option<Counts> {
    match receiver.frame(timestamp) {
        Some(frame) => Some(frame.counts()),
        None => None,
    }
}
