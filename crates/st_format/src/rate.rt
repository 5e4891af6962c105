//! Rates of frames.
ghost use Rattle.std.specs.Prelude.{◌≡◌, ◌<◌, ◌↔◌, IsOk, IfErr};
ghost use Rattle.std.specs.Int.{IsGcd};
ghost use Rattle.st_format.specs.Limits.{IsRate};
ghost use Rattle.st_format.specs.Rate.{IsLowest, common_divisor};

use crate::format::FormatFault;
use crate::format_text::FormatTextFault;
use crate::words::rate_named;
use std::fmt;
use std::str::FromStr;

/// A rate of `n` frames in `d` seconds, in lowest terms: from 1 to 300 frames a second.
#[derive(Clone, Copy, Debug, PartialEq, Eq)]
pub struct Rate {
    pub n: u32,
    pub d: u32,
    pub ghost sane: { IsRate n d },
    pub ghost lowest: { IsLowest n d },
}

impl Rate {
    ghost use Rattle.st_format.specs.Forms.{made_rate, rate_at};

    /// The rate of `n` frames in `d` seconds, brought to lowest terms.
    ///
    /// `BadRate` unless `n` and `d` are from 1 to 1,000,000 and `n / d` from 1 to 300 (own limits).
    pub fn new(n: u32, d: u32) -> Result<Rate, FormatFault>
        ensures found { IsOk result ↔ IsRate n d }
        ensures fault { IfErr result (λ e. e ≡ FormatFault.BadRate) }
        // The same by the numbers, for the walks that go on from it.
        ensures exact { made_rate result ≡ rate_at n d }
    {
        if n < 1 || n > 1_000_000 || d < 1 || d > 1_000_000 || n < d || n > 300 * d {
            return Err(FormatFault::BadRate);
        }
        let divisor = common_divisor_of(n, d);
        Ok(Rate {
            n: n / divisor,
            d: d / divisor,
        })
    }
}

fn common_divisor_of(n: u32, d: u32) -> u32
    requires { 0 < d }
    ensures value { result ≡ common_divisor n d }
    ensures divides { IsGcd n d result }
    ensures some { 0 < result }
{
    euclid(n, d)
}

/// The greatest number that divides both, by Euclid's algorithm.
fn euclid(n: u32, d: u32) -> u32
    ensures { IsGcd n d result }
{
    let mut left = n;
    let mut right = d;
    while right != 0 {
        let rest = left % right;
        left = right;
        right = rest;
    }
    left
}

/// As `exactframerate` has it (SMPTE ST 2110-20, media type parameters): `60`, `60000/1001`.
impl fmt::Display for Rate {
    ghost use Rattle.std.specs.Prelude.{Some};
    ghost use Rattle.st_format.specs.Forms.{rate_text};

    ghost output = { λ r. Some (rate_text r.n r.d) };

    fn fmt<W: fmt::Write>(&self, f: &mut fmt::Formatter<W>) -> fmt::Result {
        if self.d == 1 {
            write!(f, "{}", self.n)
        } else {
            write!(f, "{}/{}", self.n, self.d)
        }
    }
}

/// Reads `N` or `N/D`, two numbers of one to ten decimal digits, of which zeros may lead; `120/2`
/// is read as `60`.
///
/// `NotRate` where the text isn't of that form, else `Refused(BadRate)` where `Rate::new` refuses
/// the numbers.
impl FromStr for Rate {
    type Err = FormatTextFault;

    ghost use Rattle.st_format.specs.Forms.{made_rate, read_rate};

    ghost from_str_gives = { λ text r. made_rate r ≡ read_rate text };

    #[tactic(auto, unfolding(crate::specs::Forms::read_rate))]
    fn from_str(text: &str) -> Result<Rate, FormatTextFault> {
        let (n, d) = rate_named(text.as_bytes()).ok_or(FormatTextFault::NotRate)?;
        match Rate::new(n, d) {
            Ok(rate) => Ok(rate),
            Err(fault) => Err(FormatTextFault::Refused(fault)),
        }
    }
}
