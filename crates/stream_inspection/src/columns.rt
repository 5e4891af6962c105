//! Rows for a person: in columns, and else in words.
ghost use Rattle.std.specs.Prelude.{◌≡◌, ◌≤◌, ◌<◌, ◌++◌, length};
ghost use Rattle.arrayvec.specs.ArrayString.{array_string_len};
ghost use Rattle.stream_inspection.specs.Columns.{column_text, path_column, skew_column};
ghost use Rattle.stream_inspection.specs.Columns.{timestamp_column, together_column, window_column};
ghost use Rattle.stream_inspection.specs.declared.rows.Row.TheVariants.{Refused};

use crate::rows::{PathRow, Row, SkewRow, TimestampRow, TogetherRow};
use crate::text::LINE;
use crate::values::{add_commas, add_skew, add_wide, path_word, yes_word};
use arrayvec::ArrayString;
use path_receiver::Refusal;
use text_line::{add, add_number};

/// A row without its end, for which there is room.
pub(crate) fn columns_of(row: Row) -> ArrayString<LINE>
    ensures text { result.bytes ≡ column_text row }
    ensures room { array_string_len result < LINE }
{
    let mut text = ArrayString::<LINE>::new();
    add_columns(&mut text, row);
    text
}

/// Adds a row behind no text. There is room for its end then.
fn add_columns(text: &mut ArrayString<LINE>, row: Row)
    requires { array_string_len text.old ≡ 0 }
    ensures text { text.new.bytes ≡ text.old.bytes ++ column_text row }
    ensures room { array_string_len text.new < LINE }
{
    match row {
        Row::Path(row) => add_path(text, row),
        Row::Together(row) => add_together(text, row),
        Row::Timestamp(row) => add_timestamp(text, row),
        Row::Skew(row) => add_skews(text, row),
        Row::Refused(refusal, count) => add_refused(text, refusal, count),
        Row::Control(count) => add_number(text, "RTCP ", count),
        Row::Nothing(payload_type) => {
            add_number(
                text,
                "no datagram of payload type ",
                u64::from(payload_type),
            );
            add(text, " came");
        }
    }
}

/// Adds of a path: datagrams, lowest and highest number, and how many were lost, repeated and late.
fn add_path(text: &mut ArrayString<LINE>, row: PathRow)
    requires { array_string_len text.old ≡ 0 }
    ensures text { text.new.bytes ≡ text.old.bytes ++ path_column row }
    ensures room { array_string_len text.new < LINE }
{
    add(text, "  ");
    add(text, path_word(row.path));
    add(text, "   ");
    add_wide(text, Some(row.datagrams));
    add_wide(text, row.lowest);
    add_wide(text, row.highest);
    add_wide(text, Some(row.lost));
    add_wide(text, Some(row.repeated));
    add_wide(text, Some(row.late));
}

/// Adds in words what each path alone would lose, and both together.
fn add_together(text: &mut ArrayString<LINE>, row: TogetherRow)
    requires { array_string_len text.old ≡ 0 }
    ensures text { text.new.bytes ≡ text.old.bytes ++ together_column row }
    ensures room { array_string_len text.new < LINE }
{
    add_number(text, "  A alone would lose ", row.lost_by_a);
    add_number(text, ", B alone ", row.lost_by_b);
    add_number(text, ", both together ", row.lost_by_both);
}

/// Adds of a timestamp: its source, itself, datagrams by A and by B, marker, ticks and skew.
fn add_timestamp(text: &mut ArrayString<LINE>, row: TimestampRow)
    requires { array_string_len text.old ≡ 0 }
    ensures text { text.new.bytes ≡ text.old.bytes ++ timestamp_column row }
    ensures room { array_string_len text.new < LINE }
{
    add_wide(text, Some(u64::from(row.key.stream.ssrc)));
    add_wide(text, Some(u64::from(row.key.timestamp)));
    add_wide(text, Some(row.by_a));
    add_wide(text, Some(row.by_b));
    add(text, yes_word(row.marker));
    add_wide(text, row.ticks);
    add_skew(text, row.skew);
}

/// Adds in words the least, the middle and the greatest skew.
fn add_skews(text: &mut ArrayString<LINE>, row: SkewRow)
    requires { array_string_len text.old ≡ 0 }
    ensures text { text.new.bytes ≡ text.old.bytes ++ skew_column row }
    ensures room { array_string_len text.new < LINE }
{
    add(text, "skew of B in nanoseconds: least");
    add_skew(text, row.least);
    add(text, ", middle");
    add_skew(text, row.middle);
    add(text, ", greatest");
    add_skew(text, row.greatest);
    add_number(text, ", of ", row.timestamps);
    add(text, " timestamps");
}

/// Adds the number and the name of a refusal, and how many datagrams it has.
fn add_refused(text: &mut ArrayString<LINE>, refusal: Refusal, count: u64)
    requires { array_string_len text.old ≡ 0 }
    ensures text { text.new.bytes ≡ text.old.bytes ++ column_text (Refused refusal count) }
    ensures room { array_string_len text.new < LINE }
{
    add_number(text, "refused ", u64::from(refusal.number()));
    add(text, " ");
    add(text, refusal.name());
    add_number(text, " ", count);
}

/// A window of timestamps, as `receive` reads it behind the word, without an end, for which there
/// is room.
pub(crate) fn column_window_of(timestamps: &[u32]) -> ArrayString<LINE>
    requires { length timestamps.now ≤ 16 }
    ensures text { result.bytes ≡ window_column timestamps.now }
    ensures room { array_string_len result < LINE }
{
    let mut text = ArrayString::<LINE>::new();
    add(&mut text, "window ");
    add_commas(&mut text, timestamps);
    text
}
