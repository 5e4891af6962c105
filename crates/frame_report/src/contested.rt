//! The lines of contested samples.
ghost use Rattle.std.specs.Prelude.{◌≡◌, ◌≤◌, ◌<◌, ◌+◌, ◌++◌, [], OnErr, OnOk, count_by};
ghost use Rattle.std.specs.Prelude.{length, slice_index_or};
ghost use Rattle.st_format.specs.Cell.{is_contested};
ghost use Rattle.st_format.specs.Device.{CountsFaults};
ghost use Rattle.frame_report.specs.Gathers.{Gathers, TakesPart, told_of};
ghost use Rattle.frame_report.specs.Contested.{component_names, contested_in_row, contested_lines};
ghost use Rattle.frame_report.specs.Contested.{sample_text, spot_line};

use crate::page::{GATHERED, LINE, Page};
use crate::rows::{RowLines, put_rows};
use frame_assembly::Frame;
use st_format::{ByteSink, DeviceFault, Sampling};
use std::alloc::Allocator;

/// Puts a line for each contested sample of a frame, rows from the top. Where none is, there is
/// nothing to look for.
pub(crate) fn put_contested<A: Allocator, K: ByteSink>(
    page: &mut Page,
    sink: &mut K,
    frame: &Frame<A>,
    contested: u64,
) -> Result<(), DeviceFault>
    requires { contested ≡ count_by is_contested frame.now.cells }
    ensures ok { OnOk result
        (Gathers (told_of K.took K.held sink.old) (told_of K.took K.held sink.new) page.old page.new
        (contested_lines frame.now)) }
    ensures fault { OnErr result
        (TakesPart (told_of K.took K.held sink.old) (told_of K.took K.held sink.new)
        (page.old ++ contested_lines frame.now)) }
    ensures counted { CountsFaults (K.failures sink.old) (K.failures sink.new) result }
{
    if contested == 0 {
        return Ok(());
    }
    put_rows::<ContestedSamples, A, K>(page, sink, frame)
}

/// The lines of the contested samples, one for each.
struct ContestedSamples;

impl RowLines for ContestedSamples {
    ghost lines = { contested_in_row };

    fn put_row<A: Allocator, K: ByteSink>(
        page: &mut Page,
        sink: &mut K,
        frame: &Frame<A>,
        row: u32,
    ) -> Result<(), DeviceFault> {
        let sampling = frame.format().sampling();
        for (column, component) in frame.contested(row) {
            put_line(page, sink, sampling, row, column, component)?;
        }
        Ok(())
    }
}

/// Puts the line of a row's sample, by the name of its component.
fn put_line<K: ByteSink>(
    page: &mut Page,
    sink: &mut K,
    sampling: Sampling,
    row: u32,
    column: u32,
    component: u8,
) -> Result<(), DeviceFault>
    requires { component < 3 }
    ensures ok { OnOk result
        (Gathers (told_of K.took K.held sink.old) (told_of K.took K.held sink.new) page.old page.new
        (spot_line sampling row (column, component))) }
    ensures fault { OnErr result
        (TakesPart (told_of K.took K.held sink.old) (told_of K.took K.held sink.new)
        (page.old ++ spot_line sampling row (column, component))) }
    ensures counted { CountsFaults (K.failures sink.old) (K.failures sink.new) result }
{
    let name = component_name(sampling, component);
    page.make_room(sink)?;
    add_line(page, row, column, name);
    Ok(())
}

fn add_line(page: &mut Page, row: u32, column: u32, name: &[u8])
    requires room { length page.old + LINE ≤ GATHERED }
    requires name { length name.now ≤ 2 }
    ensures { page.new ≡ page.old ++ sample_text row column name.now }
{
    page.add_number(b"contested row ", u64::from(row));
    page.add_number(b" column ", u64::from(column));
    page.add(b" ");
    page.add(name);
    page.add(b"\n");
}

/// What a report calls a component: Y, Cb and Cr, or R, G and B.
fn component_name(sampling: Sampling, component: u8) -> &'static [u8]
    requires { component < 3 }
    ensures name { result.now ≡ slice_index_or (component_names sampling) component [] }
    ensures short { length result.now ≤ 2 }
{
    match (sampling, component) {
        (Sampling::Rgb, 0) => b"R",
        (Sampling::Rgb, 1) => b"G",
        (Sampling::Rgb, _) => b"B",
        (Sampling::Ycc422 | Sampling::Ycc444, 0) => b"Y",
        (Sampling::Ycc422 | Sampling::Ycc444, 1) => b"Cb",
        (Sampling::Ycc422 | Sampling::Ycc444, _) => b"Cr",
    }
}
