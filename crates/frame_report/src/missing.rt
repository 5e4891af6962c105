//! The lines of missing pgroups.
ghost use Rattle.std.specs.Prelude.{◌≡◌, ◌≤◌, ◌<◌, ◌+◌, ◌++◌, OnErr, OnOk};
ghost use Rattle.std.specs.Prelude.{count_by, length};
ghost use Rattle.st_format.specs.Cell.{is_missing};
ghost use Rattle.st_format.specs.Device.{CountsFaults};
ghost use Rattle.frame_report.specs.Gathers.{Gathers, TakesPart, told_of};
ghost use Rattle.frame_report.specs.Missing.{columns_line, missing_in_row, missing_lines};
ghost use Rattle.frame_report.specs.Missing.{run_text};

use crate::page::{GATHERED, LINE, Page};
use crate::rows::{RowLines, put_rows};
use frame_assembly::Frame;
use st_format::{ByteSink, DeviceFault};
use std::alloc::Allocator;
use std::ops::Range;

/// Puts a line for each maximal run of missing groups of a frame, rows from the top. Where no
/// sample is missing, there is nothing to look for.
pub(crate) fn put_missing<A: Allocator, K: ByteSink>(
    page: &mut Page,
    sink: &mut K,
    frame: &Frame<A>,
    missing: u64,
) -> Result<(), DeviceFault>
    requires { missing ≡ count_by is_missing frame.now.cells }
    ensures ok { OnOk result
        (Gathers (told_of K.took K.held sink.old) (told_of K.took K.held sink.new) page.old page.new
        (missing_lines frame.now)) }
    ensures fault { OnErr result
        (TakesPart (told_of K.took K.held sink.old) (told_of K.took K.held sink.new)
        (page.old ++ missing_lines frame.now)) }
    ensures counted { CountsFaults (K.failures sink.old) (K.failures sink.new) result }
{
    if missing == 0 {
        frame.facts();
        return Ok(());
    }
    put_rows::<MissingGroups, A, K>(page, sink, frame)
}

/// The lines of missing pgroups, one for each maximal run of a row.
struct MissingGroups;

impl RowLines for MissingGroups {
    ghost lines = { missing_in_row };

    fn put_row<A: Allocator, K: ByteSink>(
        page: &mut Page,
        sink: &mut K,
        frame: &Frame<A>,
        row: u32,
    ) -> Result<(), DeviceFault> {
        for columns in frame.missing_runs(row) {
            put_run(page, sink, row, columns)?;
        }
        Ok(())
    }
}

/// Puts the line of a row's columns, by the first and the last one.
fn put_run<K: ByteSink>(
    page: &mut Page,
    sink: &mut K,
    row: u32,
    columns: Range<u32>,
) -> Result<(), DeviceFault>
    requires { columns.start < columns.end }
    ensures ok { OnOk result
        (Gathers (told_of K.took K.held sink.old) (told_of K.took K.held sink.new) page.old page.new
        (columns_line row columns)) }
    ensures fault { OnErr result
        (TakesPart (told_of K.took K.held sink.old) (told_of K.took K.held sink.new)
        (page.old ++ columns_line row columns)) }
    ensures counted { CountsFaults (K.failures sink.old) (K.failures sink.new) result }
{
    page.make_room(sink)?;
    add_line(page, row, columns.start, columns.end - 1);
    Ok(())
}

/// Adds the line of a row's columns.
fn add_line(page: &mut Page, row: u32, first: u32, last: u32)
    requires { length page.old + LINE ≤ GATHERED }
    ensures { page.new ≡ page.old ++ run_text row first last }
{
    page.add_number(b"missing row ", u64::from(row));
    page.add_number(b" columns ", u64::from(first));
    page.add_number(b" to ", u64::from(last));
    page.add(b"\n");
}
