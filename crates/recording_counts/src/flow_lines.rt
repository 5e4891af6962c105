//! What is counted of a flow, as text for a person.
ghost use Rattle.std.specs.Prelude.{◌≡◌, ◌<◌, ◌≤◌, ◌+◌, ◌*◌, ◌++◌, Some, length};
ghost use Rattle.std.specs.List.{flat_map};
ghost use Rattle.arrayvec.specs.ArrayString.{array_string_len};
ghost use Rattle.recording_counts.specs.FlowLines.{count_text, hundredths, others_text, rate_text};
ghost use Rattle.recording_counts.specs.FlowLines.{rtcp_text, span_text, stream_text};
ghost use Rattle.recording_counts.specs.FlowLines.{streams_text, times_text};

use crate::flow_count::FlowCount;
use crate::number_text::{add_hundredths, add_moment};
use crate::rtp_stream::RtpStream;
use crate::rtp_streams::Streams;
use crate::times::Times;
use address_text::add_socket;
use arrayvec::ArrayString;
use std::fmt;
use text_line::{add, add_number};

/// Room for what is told of a flow, in lines or as an object of JSON, in octets.
pub const FLOW_TEXT: usize = 3328;

/// A flow in lines, as `add_count_lines` adds them.
impl fmt::Display for FlowCount {
    ghost output = { λ c. Some (count_text c) };

    fn fmt<W: fmt::Write>(&self, f: &mut fmt::Formatter<W>) -> fmt::Result {
        let mut text = ArrayString::<FLOW_TEXT>::new();
        add_count_lines(&mut text, self);
        f.write_str(text.as_str())
    }
}

/// Adds a flow in lines, the last without an end of line, to a text that has room for `FLOW_TEXT`
/// octets more:
///
/// ```text
/// flow 239.20.0.1:5004
///   datagrams 18004, octets 25920112, RTP 18000, RTCP 4
///   payload type 96, source 439041101: datagrams 18000, timestamps 900 to 89100
///   from 1732600000.000000000 to 1732600001.000000000, 207.36 Mbit/s
/// ```
///
/// RTCP is told where a datagram is such. A line is there for each stream of RTP, and one that
/// there are others where there are. The last one is there where a datagram has a time. A rate is
/// told where the last time is behind the first.
pub fn add_count_lines<const N: usize>(text: &mut ArrayString<N>, count: &FlowCount)
    requires { array_string_len text.old + FLOW_TEXT ≤ N }
    ensures text { text.new.bytes ≡ text.old.bytes ++ count_text count.now }
    ensures room { array_string_len text.new ≤ array_string_len text.old + FLOW_TEXT }
{
    add(text, "flow ");
    add_socket(text, count.destination);
    add_number(text, "\n  datagrams ", count.datagrams);
    add_number(text, ", octets ", count.octets);
    add_number(text, ", RTP ", count.rtp.datagrams);
    add_rtcp(text, count.rtp.rtcp);
    add_streams(text, &count.rtp.streams);
    add_times(text, count.times, count.octets);
}

/// Adds how many datagrams are of RTCP, where there are such.
fn add_rtcp<const N: usize>(text: &mut ArrayString<N>, count: u64)
    requires { array_string_len text.old + 27 ≤ N }
    ensures text { text.new.bytes ≡ text.old.bytes ++ rtcp_text count }
    ensures room { array_string_len text.new ≤ array_string_len text.old + 27 }
{
    if count == 0 {
        return;
    }
    add_number(text, ", RTCP ", count);
}

/// Adds a line for each stream, and one that there are others, where there are.
fn add_streams<const N: usize>(text: &mut ArrayString<N>, streams: &Streams)
    requires { array_string_len text.old + 2477 ≤ N }
    ensures text { text.new.bytes ≡ text.old.bytes ++ streams_text streams.now }
    ensures room { array_string_len text.new ≤ array_string_len text.old + 2477 }
{
    add_each(text, streams.kept.as_slice());
    add_others(text, streams.others);
}

/// Adds that there are others, where there are.
fn add_others<const N: usize>(text: &mut ArrayString<N>, others: bool)
    requires { array_string_len text.old + 13 ≤ N }
    ensures text { text.new.bytes ≡ text.old.bytes ++ others_text others }
    ensures room { array_string_len text.new ≤ array_string_len text.old + 13 }
{
    if others {
        add(text, "\n  and others");
    }
}

/// Adds a line for each stream: at most 154 octets each.
fn add_each<const N: usize>(text: &mut ArrayString<N>, streams: &[RtpStream])
    requires { array_string_len text.old + 154 * length streams.now ≤ N }
    ensures text { text.new.bytes ≡ text.old.bytes ++ flat_map stream_text streams.now }
    ensures room { array_string_len text.new
        ≤ array_string_len text.old + 154 * length streams.now }
{
    for stream in streams {
        add_stream(text, *stream);
    }
}

/// Adds the line of a stream, behind the end of the line before: at most 154 octets.
fn add_stream<const N: usize>(text: &mut ArrayString<N>, stream: RtpStream)
    requires { array_string_len text.old + 154 ≤ N }
    ensures text { text.new.bytes ≡ text.old.bytes ++ stream_text stream }
    ensures room { array_string_len text.new ≤ array_string_len text.old + 154 }
{
    add_number(text, "\n  payload type ", u64::from(stream.payload_type));
    add_number(text, ", source ", u64::from(stream.ssrc));
    add_number(text, ": datagrams ", stream.datagrams);
    add_number(text, ", timestamps ", u64::from(stream.first));
    add_number(text, " to ", u64::from(stream.last));
}

/// Adds the least and the greatest time, where there are such, and the rate of so many octets
/// between them.
fn add_times<const N: usize>(text: &mut ArrayString<N>, times: Times, octets: u64)
    requires { array_string_len text.old + 164 ≤ N }
    ensures text { text.new.bytes ≡ text.old.bytes ++ times_text times octets }
    ensures room { array_string_len text.new ≤ array_string_len text.old + 164 }
{
    let (Some(first), Some(last)) = (times.first, times.last) else {
        return;
    };
    add_span(text, first, last, octets);
}

/// Adds the line of two times, and the rate of so many octets between them.
fn add_span<const N: usize>(text: &mut ArrayString<N>, first: u64, last: u64, octets: u64)
    requires { array_string_len text.old + 164 ≤ N }
    ensures text { text.new.bytes ≡ text.old.bytes ++ span_text octets (Some first) (Some last) }
    ensures room { array_string_len text.new ≤ array_string_len text.old + 164 }
{
    add(text, "\n  from ");
    add_moment(text, first);
    add(text, " to ");
    add_moment(text, last);
    add_rate(text, octets, first, last);
}

/// Adds how many octets came between two times, in nanoseconds, in Mbit/s, where the last is behind
/// the first.
fn add_rate<const N: usize>(text: &mut ArrayString<N>, octets: u64, first: u64, last: u64)
    requires { array_string_len text.old + 70 ≤ N }
    ensures text { text.new.bytes ≡ text.old.bytes ++ rate_text octets first last }
    ensures room { array_string_len text.new ≤ array_string_len text.old + 70 }
{
    if last <= first {
        return;
    }
    add(text, ", ");
    add_hundredths(text, rate_of(octets, last - first));
    add(text, " Mbit/s");
}

/// So many octets in so many nanoseconds, in hundredths of Mbit/s, rounded down.
pub(crate) fn rate_of(octets: u64, nanoseconds: u64) -> u128
    requires { 0 < nanoseconds }
    ensures { result ≡ hundredths octets nanoseconds }
{
    u128::from(octets) * 800_000 / u128::from(nanoseconds)
}
