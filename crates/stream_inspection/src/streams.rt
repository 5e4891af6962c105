//! What is told of streams.
ghost use Rattle.std.specs.Prelude.{◌≡◌, ◌++◌, List, OnOk};
ghost use Rattle.std.specs.List.{flat_map};
ghost use Rattle.recording_counts.specs.declared.packet.Packet.{Packet as PacketValue};
ghost use Rattle.stream_inspection.specs.Lines.{row_line};
ghost use Rattle.stream_inspection.specs.Numbers.{AreStreams, told_streams};
ghost use Rattle.stream_inspection.specs.Streams.{packet_number};
ghost use Rattle.stream_inspection.specs.Streams.{path_row, stream_lines, together_row};
ghost use Rattle.stream_inspection.specs.Streams.{is_wrong, lower, span, wrong_lines};

use crate::headings::{stream_heading, wrong_heading};
use crate::rows::{PathRow, Row, TogetherRow};
use crate::stream_tables::StreamTables;
use crate::text::{Form, put_heading, put_row};
use recording_counts::{PathCount, StreamCount, StreamKey};
use st_format::Path;
use std::alloc::{AllocError, Allocator};

/// Whether something is wrong with a stream on one path.
fn is_wrong(row: &PathRow) -> bool
    ensures { result ≡ is_wrong row.now }
{
    row.datagrams == 0 || row.lost > 0 || row.repeated > 0 || row.late > 0
}

/// A packet number as it is told: the numbers of the first round begin at 2^32.
fn packet_number(number: Option<u64>) -> Option<u64>
    ensures { result ≡ packet_number number }
{
    match number {
        Some(number) if number < 1 << 32 => Some(number),
        Some(number) => Some(number - (1 << 32)),
        None => None,
    }
}

/// How many numbers there are from the lowest to the highest, both counted; 0 where none came.
fn span(lowest: Option<u64>, highest: Option<u64>) -> u64
    ensures { result ≡ span lowest highest }
{
    match (lowest, highest) {
        (Some(lowest), Some(highest)) => highest.saturating_sub(lowest).saturating_add(1),
        _ => 0,
    }
}

/// The lower one of the lowest numbers of two paths.
fn lower(a: Option<u64>, b: Option<u64>) -> Option<u64>
    ensures { result ≡ lower a b }
{
    match (a, b) {
        (Some(a), Some(b)) => Some(a.min(b)),
        (Some(a), None) => Some(a),
        (None, b) => b,
    }
}

/// What is told of a stream on one path. Lost is what never came of the numbers between.
fn path_row<A: Allocator>(key: StreamKey, path: Path, count: &PathCount<A>) -> PathRow
    ensures { result ≡ path_row key path count.now }
{
    PathRow {
        key,
        path,
        datagrams: count.datagrams,
        lowest: packet_number(count.lowest),
        highest: packet_number(count.highest),
        lost: span(count.lowest, count.highest).saturating_sub(count.different),
        repeated: count.datagrams.saturating_sub(count.different),
        late: count.late,
    }
}

/// What is told of a stream on both paths.
fn together_row<A: Allocator>(count: &StreamCount<A>) -> TogetherRow
    ensures { result ≡ together_row count.now }
{
    let numbers = span(lower(count.a.lowest, count.b.lowest), count.highest);
    let only_b = count.b.different.saturating_sub(count.both);
    TogetherRow {
        key: count.key,
        both: count.both,
        lost_by_a: numbers.saturating_sub(count.a.different),
        lost_by_b: numbers.saturating_sub(count.b.different),
        lost_by_both: numbers
            .saturating_sub(count.a.different)
            .saturating_sub(only_b),
    }
}

fn put_path<A: Allocator, B: Allocator>(
    text: &mut Vec<u8, A>,
    form: Form,
    key: StreamKey,
    path: Path,
    count: &PathCount<B>,
) -> Result<(), AllocError>
    ensures { OnOk result (text.new.items ≡ text.old.items
        ++ row_line form (Row.Path (path_row key path count.now))) }
{
    put_row(text, form, Row::Path(path_row(key, path, count)))
}

/// Puts in words what is wrong with a stream on one path, where something is.
fn put_wrong<A: Allocator, B: Allocator>(
    text: &mut Vec<u8, A>,
    form: Form,
    key: StreamKey,
    path: Path,
    count: &PathCount<B>,
) -> Result<(), AllocError>
    ensures { OnOk result (text.new.items ≡ text.old.items
        ++ wrong_lines form (path_row key path count.now)) }
{
    let row = path_row(key, path, count);
    if is_wrong(&row) {
        return put_heading(text, form, wrong_heading(&row));
    }
    Ok(())
}

/// Puts a stream's heading, a row of each path, in words what is wrong there, and a row of both.
fn put_stream<A: Allocator, B: Allocator>(
    text: &mut Vec<u8, A>,
    form: Form,
    count: &StreamCount<B>,
) -> Result<(), AllocError>
    ensures { OnOk result (text.new.items ≡ text.old.items ++ stream_lines form count.now) }
{
    put_heading(text, form, stream_heading(count.key))?;
    put_path(text, form, count.key, Path::A, &count.a)?;
    put_path(text, form, count.key, Path::B, &count.b)?;
    put_wrong(text, form, count.key, Path::A, &count.a)?;
    put_wrong(text, form, count.key, Path::B, &count.b)?;
    put_row(text, form, Row::Together(together_row(count)))
}

/// Puts what is told of each stream, by packet numbers of 32 bits or of 16.
pub(crate) fn put_streams<A: Allocator, B: Allocator + Copy>(
    text: &mut Vec<u8, A>,
    form: Form,
    tables: &StreamTables<B>,
) -> Result<(), AllocError>
    ensures { OnOk result ((packets : List PacketValue) → AreStreams tables.now packets
        → text.new.items ≡ text.old.items
        ++ flat_map (stream_lines {A = B} form) (told_streams packets)) }
{
    let longs = tables.long.streams();
    for (place, long) in longs.iter().enumerate() {
        put_stream(text, form, tables.told(place, long))?;
    }
    Ok(())
}
