//! Where samples stand in a row.
ghost use Rattle.std.specs.Prelude.{◌≡◌, ◌≤◌, ◌<◌, ◌^◌};
ghost use Rattle.st_format.specs.Position.{number_in_row, place_in_row};

use st_format::Sampling;

/// The column of the j-th sample of a row: Cb and Cr of 4:2:2 are at the even column.
#[tactic(auto, using(crate::proofs::InRow::columns))]
#[inline(always)]
pub(crate) fn column_in_row(sampling: Sampling, j: usize) -> usize
    requires { j < 2 ^ 32 }
    ensures value { result ≡ (place_in_row sampling j).0 }
    ensures most { result ≤ j }
{
    match sampling {
        Sampling::Ycc422 => j / 4 * 2 + j % 4 / 3,
        Sampling::Ycc444 => j / 3,
        Sampling::Rgb => j / 3,
    }
}

/// The number in its row of the luma at a column; of R, G and B it would be R's, and no key has
/// these.
#[tactic(auto, using(crate::proofs::InRow::lumas))]
#[inline(always)]
pub(crate) fn luma_in_row(sampling: Sampling, column: usize) -> usize
    requires { column < 2 ^ 32 }
    ensures { result ≡ number_in_row sampling column 0 }
{
    match sampling {
        Sampling::Ycc422 => 2 * column + 1,
        Sampling::Ycc444 => 3 * column + 1,
        Sampling::Rgb => 3 * column,
    }
}
