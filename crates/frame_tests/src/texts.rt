//! Samplings, depths, paths, rates, formats and counts as texts. Which texts are read as such, and
//! which are refused, clauses say.
use crate::checks::met;
use frame_assembly::Counts;
use st_format::{Depth, Format, FormatFault, FormatTextFault, Path, Rate, Sampling, WordFault};
use std::test::Fail;
use test_kit::words::{all_say, says};

const SAMPLINGS: [(Sampling, &str); 3] = [
    (Sampling::Ycc422, "YCbCr-4:2:2"),
    (Sampling::Ycc444, "YCbCr-4:4:4"),
    (Sampling::Rgb, "RGB"),
];

const DEPTHS: [(Depth, &str); 4] = [
    (Depth::D8, "8"),
    (Depth::D10, "10"),
    (Depth::D12, "12"),
    (Depth::D16, "16"),
];

const PATHS: [(Path, &str); 2] = [(Path::A, "A"), (Path::B, "B")];

/// Rates as they are given, and their texts in lowest terms.
const RATES: [(u32, u32, &str); 8] = [
    (60, 1, "60"),
    (60_000, 1001, "60000/1001"),
    (120, 2, "60"),
    (75, 3, "25"),
    (1, 1, "1"),
    (300, 1, "300"),
    (1_000_000, 1_000_000, "1"),
    (1_000_000, 999_999, "1000000/999999"),
];

/// A format as it is given, and its text.
type Written = ((Sampling, Depth, u32, u32, u32, u32), &'static str);

const FORMATS: [Written; 4] = [
    (
        (Sampling::Ycc422, Depth::D10, 1920, 1080, 60_000, 1001),
        "YCbCr-4:2:2 10 1920 1080 60000/1001",
    ),
    ((Sampling::Rgb, Depth::D8, 2, 1, 60, 1), "RGB 8 2 1 60"),
    ((Sampling::Rgb, Depth::D12, 4, 2, 3, 2), "RGB 12 4 2 3/2"),
    (
        (Sampling::Ycc444, Depth::D16, 8192, 8192, 120, 2),
        "YCbCr-4:4:4 16 8192 8192 60",
    ),
];

const OF_WORDS: [(WordFault, &str); 3] = [
    (
        WordFault::UnknownSampling,
        "a sampling is YCbCr-4:2:2, YCbCr-4:4:4 or RGB",
    ),
    (WordFault::UnknownDepth, "a depth is 8, 10, 12 or 16"),
    (WordFault::UnknownPath, "a path is A or B"),
];

const OF_TEXTS: [(FormatTextFault, &str); 3] = [
    (
        FormatTextFault::NotFormat,
        "a format is S B W H N/D, as YCbCr-4:2:2 10 1920 1080 60000/1001",
    ),
    (
        FormatTextFault::NotRate,
        "a rate is N or N/D, as 60 or 60000/1001",
    ),
    (
        FormatTextFault::Refused(FormatFault::BadRate),
        "the rate's N or D isn't from 1 to 1000000, or N/D isn't from 1 to 300",
    ),
];

const COUNTS: Counts = Counts {
    present: 7,
    missing: 8,
    contested: 1,
};

#[test]
fn words_and_faults(rt: HostRuntime) {
    met(&rt, all_say(rt.alloc(), &SAMPLINGS));
    met(&rt, all_say(rt.alloc(), &DEPTHS));
    met(&rt, all_say(rt.alloc(), &PATHS));
    met(&rt, all_say(rt.alloc(), &OF_WORDS));
    met(&rt, all_say(rt.alloc(), &OF_TEXTS));
    met(
        &rt,
        says(rt.alloc(), &COUNTS, "present 7 missing 8 contested 1"),
    );
}

#[test]
fn rates_and_formats(rt: HostRuntime) -> Result<(), Fail> {
    for (n, d, text) in RATES {
        let rate = Rate::new(n, d)?;
        met(&rt, says(rt.alloc(), &rate, text));
    }
    for ((sampling, depth, width, height, n, d), text) in FORMATS {
        let format = Format::new(sampling, depth, width, height, n, d)?;
        met(&rt, says(rt.alloc(), &format, text));
    }
    Ok(())
}
