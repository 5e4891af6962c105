//! Runs of pgroups of which each sample has a value, in octets of a file.
ghost use Rattle.std.specs.Prelude.{◌≡◌, ◌≤◌, ◌+◌, ◌*◌, length, map, take};
ghost use Rattle.st_format.specs.Pgroup.{bits_of};
ghost use Rattle.st_format.specs.Samples.{values_in};
ghost use Rattle.st_format.specs.declared.cell.Cell.TheVariants.{Value};
ghost use Rattle.receiver_file.specs.Known.{shape_in};
ghost use Rattle.receiver_file.specs.Taking.{AreGroups};

use crate::groups::{WIDE, put_octets, put_wide};
use st_format::Format;

/// Puts the octets of whole groups side by side, of those that octets begin with, at most so many.
pub(crate) fn pack_run(format: &Format, octets: &[u8], most: usize, packed: &mut [u8]) -> usize
    requires { length octets.now ≤ length packed.old }
    ensures room { length packed.new ≡ length packed.old }
    ensures most { result ≤ most }
    ensures within { (1 + (shape_in format.now).octets) * result ≤ length octets.now }
    ensures groups { AreGroups (shape_in format.now) result
        (take ((1 + (shape_in format.now).octets) * result) octets.now)
        (map Value (values_in (bits_of format.now.depth)
        (take ((shape_in format.now).octets * result) packed.new))) }
{
    let size = format.pgroup().octets;
    let mut count = pack_wide(format, octets, most, packed);
    let mut at = (1 + size) * count;
    let mut end = size * count;
    while count < most && octets.len() - at > size && octets[at] == 1 {
        end = put_octets(packed, end, &octets[at + 1..at + 1 + size]);
        at += 1 + size;
        count += 1;
    }
    count
}

/// The same of those that may be copied wide, there and here: all but the last few.
fn pack_wide(format: &Format, octets: &[u8], most: usize, packed: &mut [u8]) -> usize
    requires { length octets.now ≤ length packed.old }
    ensures room { length packed.new ≡ length packed.old }
    ensures most { result ≤ most }
    ensures within { (1 + (shape_in format.now).octets) * result ≤ length octets.now }
    ensures groups { AreGroups (shape_in format.now) result
        (take ((1 + (shape_in format.now).octets) * result) octets.now)
        (map Value (values_in (bits_of format.now.depth)
        (take ((shape_in format.now).octets * result) packed.new))) }
{
    let size = format.pgroup().octets;
    let mut count = 0;
    let mut at = 0;
    let mut end = 0;
    while count < most && octets.len() - at > WIDE && octets[at] == 1 {
        end = put_wide(packed, end, size, &octets[at + 1..]);
        at += 1 + size;
        count += 1;
    }
    count
}
