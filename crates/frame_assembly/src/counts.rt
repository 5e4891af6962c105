//! How many cells are of each kind.
ghost use Rattle.std.specs.Prelude.{◌≡◌, ◌≤◌, ◌-◌, ◌*◌, ◌^◌, count_by, length};
ghost use Rattle.frame_assembly.specs.Packed.{ArePacked, cells_in};
ghost use Rattle.st_format.specs.Cell.{is_contested, is_missing, is_present};

use crate::state::PRESENT;
use lane_kernels::count_marks;
use st_format::Format;
use std::fmt;

/// How many samples of a frame are of each kind.
#[derive(Clone, Copy, Debug, PartialEq, Eq)]
pub struct Counts {
    /// Samples with a value on which all offers agree.
    pub present: u64,
    /// Samples that no datagram offered.
    pub missing: u64,
    /// Samples for which two offers differ.
    pub contested: u64,
}

/// As lines of frames have it: `present P missing M contested C`.
impl fmt::Display for Counts {
    ghost use Rattle.std.specs.Prelude.{Some};
    ghost use Rattle.frame_assembly.specs.CountsText.{counts_text};

    ghost output = { λ counts. Some (counts_text counts) };

    fn fmt<W: fmt::Write>(&self, f: &mut fmt::Formatter<W>) -> fmt::Result {
        write!(
            f,
            "present {} missing {} contested {}",
            self.present, self.missing, self.contested
        )
    }
}

/// How many cells of groups are of each kind, by lanes over the mark words alone.
pub fn count_cells(format: &Format, marks: &[u16], octets: &[u8]) -> Counts
    requires packed { ArePacked format.now marks.now octets.now }
    requires few { length marks.now ≤ 8192 * 8192 }
    ensures present { result.present
        ≡ count_by is_present (cells_in format.now marks.now octets.now) }
    ensures missing { result.missing
        ≡ count_by is_missing (cells_in format.now marks.now octets.now) }
    ensures contested { result.contested
        ≡ count_by is_contested (cells_in format.now marks.now octets.now) }
{
    let samples = format.pgroup().samples;
    let groups = count_marks(marks, PRESENT);
    let contested = count_marks(marks, samples_mask(samples));
    Counts {
        present: samples as u64 * groups - contested,
        missing: samples as u64 * (marks.len() as u64 - groups),
        contested,
    }
}

/// A bit for each sample of a group: those of a mark word that tell contested samples.
fn samples_mask(samples: usize) -> u16
    requires { samples ≤ 12 }
    ensures { result ≡ 2 ^ samples - 1 }
{
    (1 << samples) - 1
}
