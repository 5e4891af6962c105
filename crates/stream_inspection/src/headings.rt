//! What stands among columns in words: headings, and what is wrong.
ghost use Rattle.std.specs.Prelude.{◌≡◌, ◌<◌};
ghost use Rattle.arrayvec.specs.ArrayString.{array_string_len};
ghost use Rattle.stream_inspection.specs.Streams.{heading_text as stream_heading_text, wrong_text};
ghost use Rattle.stream_inspection.specs.Timestamps.{heading_text as timestamps_heading_text};

use crate::rows::PathRow;
use crate::text::LINE;
use crate::values::path_word;
use arrayvec::ArrayString;
use recording_counts::StreamKey;
use text_line::{add, add_number};

/// The heading of a stream without its end, for which there is room.
pub(crate) fn stream_heading(key: StreamKey) -> ArrayString<LINE>
    ensures text { result.bytes ≡ stream_heading_text key }
    ensures room { array_string_len result < LINE }
{
    let mut text = ArrayString::<LINE>::new();
    add_number(
        &mut text,
        "stream of payload type ",
        u64::from(key.payload_type),
    );
    add_number(&mut text, " and source ", u64::from(key.ssrc));
    add(
        &mut text,
        "\n  path    datagrams       lowest      highest         lost     repeated         late",
    );
    text
}

/// What is wrong with a stream on one path, without an end, for which there is room.
pub(crate) fn wrong_heading(row: &PathRow) -> ArrayString<LINE>
    ensures text { result.bytes ≡ wrong_text row.now }
    ensures room { array_string_len result < LINE }
{
    let mut text = ArrayString::<LINE>::new();
    if row.datagrams == 0 {
        add(&mut text, "  nothing came by ");
        add(&mut text, path_word(row.path));
        return text;
    }
    add(&mut text, "  by ");
    add(&mut text, path_word(row.path));
    add_number(&mut text, " ", row.lost);
    add_number(&mut text, " never came, ", row.repeated);
    add_number(&mut text, " came more than once, ", row.late);
    add(&mut text, " came late");
    text
}

/// The heading of timestamps of a payload type without its end, for which there is room.
pub(crate) fn timestamps_heading(payload_type: u8) -> ArrayString<LINE>
    ensures text { result.bytes ≡ timestamps_heading_text payload_type }
    ensures room { array_string_len result < LINE }
{
    let mut text = ArrayString::<LINE>::new();
    add_number(
        &mut text,
        "timestamps of payload type ",
        u64::from(payload_type),
    );
    add(
        &mut text,
        "\n       source    timestamp         by A         by B       marker        ticks \
         skew of B in nanoseconds",
    );
    text
}
