//! Lines that are put row by row.
ghost use Rattle.std.specs.Prelude.{◌≡◌, ℕ, List, ◌<◌, ◌++◌, OnErr, OnOk};
ghost use Rattle.std.specs.List.{flat_map, range_with_len};
ghost use Rattle.st_format.specs.Device.{CountsFaults};
ghost use Rattle.st_format.specs.Raster.{Raster};
ghost use Rattle.frame_report.specs.Gathers.{Gathers, TakesPart, told_of};

use crate::page::Page;
use frame_assembly::Frame;
use st_format::{ByteSink, DeviceFault};
use std::alloc::Allocator;

/// What is told of each row of a frame, as lines.
pub(crate) trait RowLines {
    /// The lines of a row, none where nothing is to tell of it.
    ghost lines: { Raster → ℕ → List ℕ };

    fn put_row<A: Allocator, K: ByteSink>(
        page: &mut Page,
        sink: &mut K,
        frame: &Frame<A>,
        row: u32,
    ) -> Result<(), DeviceFault>
        requires { row < frame.now.format.height }
        ensures ok { OnOk result
            (Gathers (told_of K.took K.held sink.old) (told_of K.took K.held sink.new) page.old
            page.new (lines frame.now row)) }
        ensures fault { OnErr result
            (TakesPart (told_of K.took K.held sink.old) (told_of K.took K.held sink.new)
            (page.old ++ lines frame.now row)) }
        ensures counted { CountsFaults (K.failures sink.old) (K.failures sink.new) result };
}

/// Puts the lines of all rows, from the top.
pub(crate) fn put_rows<L: RowLines, A: Allocator, K: ByteSink>(
    page: &mut Page,
    sink: &mut K,
    frame: &Frame<A>,
) -> Result<(), DeviceFault>
    ensures ok { OnOk result
        (Gathers (told_of K.took K.held sink.old) (told_of K.took K.held sink.new) page.old page.new
        (flat_map (L.lines frame.now) (range_with_len 0 frame.now.format.height))) }
    ensures fault { OnErr result
        (TakesPart (told_of K.took K.held sink.old) (told_of K.took K.held sink.new)
        (page.old ++ flat_map (L.lines frame.now) (range_with_len 0 frame.now.format.height))) }
    ensures counted { CountsFaults (K.failures sink.old) (K.failures sink.new) result }
{
    for row in 0..frame.format().height() {
        L::put_row(page, sink, frame, row)?;
    }
    Ok(())
}
