//! The words of samplings, depths, paths and rates.
ghost use Rattle.std.specs.Prelude.{◌≡◌, Some};
ghost use Rattle.st_format.specs.Forms.{FindsBy, depth_text, path_text};
ghost use Rattle.st_format.specs.Forms.{rate_named};
ghost use Rattle.st_format.specs.Pgroup.{bits_of};
ghost use Rattle.st_format.specs.Words.{sampling_text};
ghost use Rattle.st_format.specs.declared.words.WordFault.TheVariants.{UnknownSampling};
ghost use Rattle.st_format.specs.declared.words.WordFault.TheVariants.{UnknownDepth, UnknownPath};

use crate::number::read_number;
use crate::path::Path;
use crate::sampling::{Depth, Sampling};
use crate::text::split_once;
use std::fmt;
use std::str::FromStr;
use thiserror::Error;

/// Why a text is no word for a sampling, a depth or a path, or a number no depth.
#[derive(Clone, Copy, Debug, PartialEq, Eq, Error)]
pub enum WordFault {
    /// No sampling that there is here has this word.
    #[error("a sampling is YCbCr-4:2:2, YCbCr-4:4:4 or RGB")]
    UnknownSampling = 1,
    /// No depth has this word, or this number of bits.
    #[error("a depth is 8, 10, 12 or 16")]
    UnknownDepth,
    /// The text is neither `A` nor `B`.
    #[error("a path is A or B")]
    UnknownPath,
}

impl WordFault {
    ghost use Rattle.st_format.specs.FormFaults.{word_fault_name, word_fault_number};

    /// Its number: 1 to 3.
    pub fn number(self) -> u8
        ensures { result ≡ word_fault_number self }
    {
        self as u8
    }

    /// Its bare name, as the texts of the program have it.
    pub fn name(self) -> &'static str
        ensures { result.now ≡ word_fault_name self }
    {
        match self {
            WordFault::UnknownSampling => "UnknownSampling",
            WordFault::UnknownDepth => "UnknownDepth",
            WordFault::UnknownPath => "UnknownPath",
        }
    }
}

/// Its word (SMPTE ST 2110-20, sampling): `YCbCr-4:2:2`, `YCbCr-4:4:4` or `RGB`.
impl fmt::Display for Sampling {
    ghost output = { λ s. Some (sampling_text s) };

    fn fmt<W: fmt::Write>(&self, f: &mut fmt::Formatter<W>) -> fmt::Result {
        match self {
            Sampling::Ycc422 => f.write_str("YCbCr-4:2:2"),
            Sampling::Ycc444 => f.write_str("YCbCr-4:4:4"),
            Sampling::Rgb => f.write_str("RGB"),
        }
    }
}

/// Reads the word that `Display` writes, and no other: else `UnknownSampling`.
impl FromStr for Sampling {
    type Err = WordFault;

    ghost from_str_gives = { FindsBy sampling_text UnknownSampling };

    fn from_str(text: &str) -> Result<Sampling, WordFault> {
        match Sampling::of_word(text.as_bytes()) {
            Some(sampling) => Ok(sampling),
            None => Err(WordFault::UnknownSampling),
        }
    }
}

/// How many bits a sample has (SMPTE ST 2110-20, depth): `8`, `10`, `12` or `16`.
impl fmt::Display for Depth {
    ghost output = { λ b. Some (depth_text b) };

    fn fmt<W: fmt::Write>(&self, f: &mut fmt::Formatter<W>) -> fmt::Result {
        match self {
            Depth::D8 => f.write_str("8"),
            Depth::D10 => f.write_str("10"),
            Depth::D12 => f.write_str("12"),
            Depth::D16 => f.write_str("16"),
        }
    }
}

/// Reads the word that `Display` writes, and no other, as `08`: else `UnknownDepth`.
impl FromStr for Depth {
    type Err = WordFault;

    ghost from_str_gives = { FindsBy depth_text UnknownDepth };

    fn from_str(text: &str) -> Result<Depth, WordFault> {
        match text.as_bytes() {
            b"8" => Ok(Depth::D8),
            b"10" => Ok(Depth::D10),
            b"12" => Ok(Depth::D12),
            b"16" => Ok(Depth::D16),
            _ => Err(WordFault::UnknownDepth),
        }
    }
}

/// The depth of so many bits, 8, 10, 12 or 16: else `UnknownDepth`.
impl TryFrom<u32> for Depth {
    type Error = WordFault;

    ghost try_from_gives = { FindsBy bits_of UnknownDepth };

    fn try_from(bits: u32) -> Result<Depth, WordFault> {
        match bits {
            8 => Ok(Depth::D8),
            10 => Ok(Depth::D10),
            12 => Ok(Depth::D12),
            16 => Ok(Depth::D16),
            _ => Err(WordFault::UnknownDepth),
        }
    }
}

/// The name that texts have for a path: `A` or `B`.
impl fmt::Display for Path {
    ghost output = { λ p. Some (path_text p) };

    fn fmt<W: fmt::Write>(&self, f: &mut fmt::Formatter<W>) -> fmt::Result {
        match self {
            Path::A => f.write_str("A"),
            Path::B => f.write_str("B"),
        }
    }
}

/// Reads `A` or `B`, and no other text: else `UnknownPath`.
impl FromStr for Path {
    type Err = WordFault;

    ghost from_str_gives = { FindsBy path_text UnknownPath };

    fn from_str(text: &str) -> Result<Path, WordFault> {
        match text.as_bytes() {
            b"A" => Ok(Path::A),
            b"B" => Ok(Path::B),
            _ => Err(WordFault::UnknownPath),
        }
    }
}

/// The two numbers of a text `N` or `N/D`, of one to ten decimal digits each.
#[tactic(auto, unfolding(crate::specs::Forms::rate_named))]
pub(crate) fn rate_named(text: &[u8]) -> Option<(u32, u32)>
    ensures { result ≡ rate_named text.now }
{
    match split_once(text, b'/') {
        Some((n, d)) => match (read_number(n), read_number(d)) {
            (Some(n), Some(d)) => Some((n, d)),
            _ => None,
        },
        None => match read_number(text) {
            Some(n) => Some((n, 1)),
            None => None,
        },
    }
}
