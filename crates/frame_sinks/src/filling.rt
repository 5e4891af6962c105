//! What stands where a frame has no value for a sample.
ghost use Rattle.std.specs.Prelude.{◌≡◌, ◌<◌, ◌-◌, ◌^◌};
ghost use Rattle.std.specs.List.{AllByRecursion};
ghost use Rattle.frame_sinks.specs.Fills.{fill_of, limited_fill};
ghost use Rattle.st_format.specs.Pgroup.{bits_of};
ghost use Rattle.st_format.specs.Picture.{FitsDepth};

use picture_engine::black;
use st_format::{Depth, Format};

/// How the samples of frames that follow each other are filled that are missing or contested.
#[derive(Clone, Copy, Debug, PartialEq, Eq)]
pub enum Filling {
    /// By the values of a fill, one for each component.
    Fill,
    /// By those of the picture before; of the first frame by the fill's.
    Hold,
}

/// A fill for a format: the values that are given, each at most the greatest of a sample; where
/// none are given black of narrow range (SMPTE ST 2110-20, RANGE).
pub(crate) fn fill_of(fill: Option<[u16; 3]>, format: &Format) -> [u16; 3]
    ensures is { result ≡ fill_of fill format.now }
    ensures fits { AllByRecursion (FitsDepth format.now) result }
{
    match fill {
        Some(fill) => limited_fill(fill, format),
        None => black(format),
    }
}

/// The values of a fill, each at most the greatest of a sample.
fn limited_fill(fill: [u16; 3], format: &Format) -> [u16; 3]
    ensures is { result ≡ limited_fill (2 ^ bits_of format.now.depth - 1) fill }
    ensures fits { AllByRecursion (FitsDepth format.now) result }
{
    let most = most_of(format.depth());
    [fill[0].min(most), fill[1].min(most), fill[2].min(most)]
}

/// The greatest value of a sample.
fn most_of(depth: Depth) -> u16
    ensures is { result ≡ 2 ^ bits_of depth - 1 }
    ensures fits { result < 2 ^ bits_of depth }
{
    match depth {
        Depth::D8 => 255,
        Depth::D10 => 1023,
        Depth::D12 => 4095,
        Depth::D16 => 65535,
    }
}
