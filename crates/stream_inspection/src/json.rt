//! Rows for a program: as JSON objects (RFC 8259).
ghost use Rattle.std.specs.Prelude.{◌≡◌, ◌≤◌, ◌<◌, ◌+◌, ◌++◌, length};
ghost use Rattle.arrayvec.specs.ArrayString.{array_string_len};
ghost use Rattle.stream_inspection.specs.Json.{came_json, json_text, key_json, lost_json};
ghost use Rattle.stream_inspection.specs.Json.{path_json, range_json, reason_json, skew_json};
ghost use Rattle.stream_inspection.specs.Json.{timestamp_json, together_json, window_json};
ghost use Rattle.stream_inspection.specs.Json.{wrong_json};
ghost use Rattle.stream_inspection.specs.declared.rows.Row.TheVariants.{Refused};

use crate::rows::{PathRow, Row, SkewRow, TimestampRow, TogetherRow};
use crate::text::LINE;
use crate::values::{add_commas, add_null, add_null_skew, path_word, truth_word};
use arrayvec::ArrayString;
use path_receiver::Refusal;
use recording_counts::StreamKey;
use text_line::{add, add_number};

/// A row without its end, for which there is room.
pub(crate) fn json_of(row: Row) -> ArrayString<LINE>
    ensures text { result.bytes ≡ json_text row }
    ensures room { array_string_len result < LINE }
{
    let mut text = ArrayString::<LINE>::new();
    add_json(&mut text, row);
    text
}

/// Adds a row behind no text. There is room for its end then.
fn add_json(text: &mut ArrayString<LINE>, row: Row)
    requires { array_string_len text.old ≡ 0 }
    ensures text { text.new.bytes ≡ text.old.bytes ++ json_text row }
    ensures room { array_string_len text.new < LINE }
{
    match row {
        Row::Path(row) => add_path(text, row),
        Row::Together(row) => add_together(text, row),
        Row::Timestamp(row) => add_timestamp(text, row),
        Row::Skew(row) => add_skews(text, row),
        Row::Refused(refusal, count) => add_refused(text, refusal, count),
        Row::Control(count) => {
            add_number(text, "{\"kind\":\"rtcp\",\"datagrams\":", count);
            add(text, "}");
        }
        Row::Nothing(payload_type) => {
            add_number(
                text,
                "{\"kind\":\"nothing\",\"payload_type\":",
                u64::from(payload_type),
            );
            add(text, "}");
        }
    }
}

/// Adds the stream of a row, as members: at most 63 octets.
fn add_key(text: &mut ArrayString<LINE>, key: StreamKey)
    requires { array_string_len text.old + 63 ≤ LINE }
    ensures text { text.new.bytes ≡ text.old.bytes ++ key_json key }
    ensures room { array_string_len text.new ≤ array_string_len text.old + 63 }
{
    add_number(text, "\"payload_type\":", u64::from(key.payload_type));
    add_number(text, ",\"ssrc\":", u64::from(key.ssrc));
}

/// Adds how many datagrams came by a path and between which numbers, as members: at most 93 octets.
fn add_range(text: &mut ArrayString<LINE>, row: PathRow)
    requires { array_string_len text.old + 93 ≤ LINE }
    ensures text { text.new.bytes ≡ text.old.bytes ++ range_json row }
    ensures room { array_string_len text.new ≤ array_string_len text.old + 93 }
{
    add_number(text, "\"datagrams\":", row.datagrams);
    add_null(text, ",\"lowest\":", row.lowest);
    add_null(text, ",\"highest\":", row.highest);
}

/// Adds what is wrong on a path, as members: at most 87 octets.
fn add_wrong(text: &mut ArrayString<LINE>, row: PathRow)
    requires { array_string_len text.old + 87 ≤ LINE }
    ensures text { text.new.bytes ≡ text.old.bytes ++ wrong_json row }
    ensures room { array_string_len text.new ≤ array_string_len text.old + 87 }
{
    add_number(text, "\"lost\":", row.lost);
    add_number(text, ",\"repeated\":", row.repeated);
    add_number(text, ",\"late\":", row.late);
}

/// Adds an object of the kind `path`.
fn add_path(text: &mut ArrayString<LINE>, row: PathRow)
    requires { array_string_len text.old ≡ 0 }
    ensures text { text.new.bytes ≡ text.old.bytes ++ path_json row }
    ensures room { array_string_len text.new < LINE }
{
    add(text, "{\"kind\":\"path\",");
    add_key(text, row.key);
    add(text, ",\"path\":\"");
    add(text, path_word(row.path));
    add(text, "\",");
    add_range(text, row);
    add(text, ",");
    add_wrong(text, row);
    add(text, "}");
}

/// Adds what never came of a stream, as members: at most 102 octets.
fn add_lost(text: &mut ArrayString<LINE>, row: TogetherRow)
    requires { array_string_len text.old + 102 ≤ LINE }
    ensures text { text.new.bytes ≡ text.old.bytes ++ lost_json row }
    ensures room { array_string_len text.new ≤ array_string_len text.old + 102 }
{
    add_number(text, "\"lost_by_a\":", row.lost_by_a);
    add_number(text, ",\"lost_by_b\":", row.lost_by_b);
    add_number(text, ",\"lost_by_both\":", row.lost_by_both);
}

/// Adds an object of the kind `together`.
fn add_together(text: &mut ArrayString<LINE>, row: TogetherRow)
    requires { array_string_len text.old ≡ 0 }
    ensures text { text.new.bytes ≡ text.old.bytes ++ together_json row }
    ensures room { array_string_len text.new < LINE }
{
    add(text, "{\"kind\":\"together\",");
    add_key(text, row.key);
    add_number(text, ",\"both\":", row.both);
    add(text, ",");
    add_lost(text, row);
    add(text, "}");
}

/// Adds what came of a timestamp, as members: at most 82 octets.
fn add_came(text: &mut ArrayString<LINE>, row: TimestampRow)
    requires { array_string_len text.old + 82 ≤ LINE }
    ensures text { text.new.bytes ≡ text.old.bytes ++ came_json row }
    ensures room { array_string_len text.new ≤ array_string_len text.old + 82 }
{
    add_number(text, "\"timestamp\":", u64::from(row.key.timestamp));
    add_number(text, ",\"a\":", row.by_a);
    add_number(text, ",\"b\":", row.by_b);
}

/// Adds an object of the kind `timestamp`.
fn add_timestamp(text: &mut ArrayString<LINE>, row: TimestampRow)
    requires { array_string_len text.old ≡ 0 }
    ensures text { text.new.bytes ≡ text.old.bytes ++ timestamp_json row }
    ensures room { array_string_len text.new < LINE }
{
    add(text, "{\"kind\":\"timestamp\",");
    add_key(text, row.key.stream);
    add(text, ",");
    add_came(text, row);
    add(text, ",\"marker\":");
    add(text, truth_word(row.marker));
    add_null(text, ",\"ticks\":", row.ticks);
    add_null_skew(text, ",\"skew\":", row.skew);
    add(text, "}");
}

/// Adds an object of the kind `skew`.
fn add_skews(text: &mut ArrayString<LINE>, row: SkewRow)
    requires { array_string_len text.old ≡ 0 }
    ensures text { text.new.bytes ≡ text.old.bytes ++ skew_json row }
    ensures room { array_string_len text.new < LINE }
{
    add_number(text, "{\"kind\":\"skew\",\"timestamps\":", row.timestamps);
    add_null_skew(text, ",\"least\":", row.least);
    add_null_skew(text, ",\"middle\":", row.middle);
    add_null_skew(text, ",\"greatest\":", row.greatest);
    add(text, "}");
}

/// Adds a reason for which datagrams are refused, as members: at most 70 octets.
fn add_reason(text: &mut ArrayString<LINE>, refusal: Refusal)
    requires { array_string_len text.old + 70 ≤ LINE }
    ensures text { text.new.bytes ≡ text.old.bytes ++ reason_json refusal }
    ensures room { array_string_len text.new ≤ array_string_len text.old + 70 }
{
    add_number(text, "\"number\":", u64::from(refusal.number()));
    add(text, ",\"name\":\"");
    add(text, refusal.name());
    add(text, "\"");
}

/// Adds an object of the kind `refused`.
fn add_refused(text: &mut ArrayString<LINE>, refusal: Refusal, count: u64)
    requires { array_string_len text.old ≡ 0 }
    ensures text { text.new.bytes ≡ text.old.bytes ++ json_text (Refused refusal count) }
    ensures room { array_string_len text.new < LINE }
{
    add(text, "{\"kind\":\"refused\",");
    add_reason(text, refusal);
    add_number(text, ",\"datagrams\":", count);
    add(text, "}");
}

/// A window of timestamps as a JSON object, without its end, for which there is room.
pub(crate) fn json_window_of(timestamps: &[u32]) -> ArrayString<LINE>
    requires { length timestamps.now ≤ 16 }
    ensures text { result.bytes ≡ window_json timestamps.now }
    ensures room { array_string_len result < LINE }
{
    let mut text = ArrayString::<LINE>::new();
    add(&mut text, "{\"kind\":\"window\",\"timestamps\":[");
    add_commas(&mut text, timestamps);
    add(&mut text, "]}");
    text
}
