//! One cell of groups.
ghost use Rattle.std.specs.Prelude.{◌≡◌, ◌<◌, ◌*◌, length, slice_index_or};
ghost use Rattle.frame_assembly.specs.Packed.{ArePacked, cells_in};
ghost use Rattle.st_format.specs.Pgroup.{pixel_group};
ghost use Rattle.st_format.specs.declared.cell.Cell.TheVariants.{Missing};

use crate::groups::marked_cell;
use pgroup_pack::sample_at;
use st_format::{Cell, Format};

/// The cell of the sample of this number, counted from 0 in raster order.
pub fn cell_in(format: &Format, marks: &[u16], octets: &[u8], number: usize) -> Cell
    requires packed { ArePacked format.now marks.now octets.now }
    requires below { number
        < (pixel_group format.now.sampling format.now.depth).samples * length marks.now }
    ensures { result ≡ slice_index_or (cells_in format.now marks.now octets.now) number Missing }
{
    let samples = format.pgroup().samples;
    let value = sample_at(format, octets, number);
    marked_cell(marks[number / samples], number % samples, value)
}
