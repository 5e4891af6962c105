//! What is counted of a flow, as an object of JSON for other tools.
ghost use Rattle.std.specs.Prelude.{◌≡◌, ◌≤◌, ◌+◌, ◌*◌, ◌++◌, Some, length};
ghost use Rattle.std.specs.List.{flat_map};
ghost use Rattle.arrayvec.specs.ArrayString.{array_string_len};
ghost use Rattle.recording_counts.specs.FlowJson.{count_json, moment_json, numbers_json};
ghost use Rattle.recording_counts.specs.FlowJson.{objects_json, other_json, rate_json, stream_json};
ghost use Rattle.recording_counts.specs.FlowJson.{streams_json, times_json, truth_json};

use crate::flow_count::FlowCount;
use crate::flow_lines::{FLOW_TEXT, rate_of};
use crate::number_text::{add_hundredths, add_moment};
use crate::rtp_stream::RtpStream;
use crate::rtp_streams::Streams;
use crate::times::Times;
use address_text::add_socket;
use arrayvec::ArrayString;
use std::fmt;
use text_line::{add, add_number};

/// A flow as an object of JSON, as `add_count_json` adds it.
#[derive(Clone, Copy)]
pub struct CountJson<'a>(pub &'a FlowCount);

impl fmt::Display for CountJson<'_> {
    ghost output = { λ c. Some (count_json c.0.now) };

    fn fmt<W: fmt::Write>(&self, f: &mut fmt::Formatter<W>) -> fmt::Result {
        let mut text = ArrayString::<FLOW_TEXT>::new();
        add_count_json(&mut text, self.0);
        f.write_str(text.as_str())
    }
}

/// Adds a flow as an object of JSON (RFC 8259) in one line, without an end of line, to a text that
/// has room for `FLOW_TEXT` octets more:
///
/// ```text
/// {"flow":"239.20.0.1:5004","datagrams":18000,"octets":25920000,"rtp":18000,"rtcp":0,"streams":[
/// {"payload_type":96,"source":439041101,"datagrams":18000,"first_timestamp":900,"last_timestamp":
/// 89100}],"other_streams":false,"first":1732600000.000000000,"last":1732600001.000000000,
/// "mbit_per_second":207.36}
/// ```
///
/// Each member is there, in this order; of a time that isn't known, and of a rate that isn't told,
/// the value is `null`.
pub fn add_count_json<const N: usize>(text: &mut ArrayString<N>, count: &FlowCount)
    requires { array_string_len text.old + FLOW_TEXT ≤ N }
    ensures text { text.new.bytes ≡ text.old.bytes ++ count_json count.now }
    ensures room { array_string_len text.new ≤ array_string_len text.old + FLOW_TEXT }
{
    add(text, "{\"flow\":\"");
    add_socket(text, count.destination);
    add(text, "\"");
    add_numbers(text, count);
    add_streams(text, &count.rtp.streams);
    add_times(text, count.times, count.octets);
    add(text, "}");
}

/// Adds the members that tell how many datagrams and octets there are.
fn add_numbers<const N: usize>(text: &mut ArrayString<N>, count: &FlowCount)
    requires { array_string_len text.old + 118 ≤ N }
    ensures text { text.new.bytes ≡ text.old.bytes ++ numbers_json count.now }
    ensures room { array_string_len text.new ≤ array_string_len text.old + 118 }
{
    add_number(text, ",\"datagrams\":", count.datagrams);
    add_number(text, ",\"octets\":", count.octets);
    add_number(text, ",\"rtp\":", count.rtp.datagrams);
    add_number(text, ",\"rtcp\":", count.rtp.rtcp);
}

/// Adds the members that tell streams.
fn add_streams<const N: usize>(text: &mut ArrayString<N>, streams: &Streams)
    requires { array_string_len text.old + 2883 ≤ N }
    ensures text { text.new.bytes ≡ text.old.bytes ++ streams_json streams.now }
    ensures room { array_string_len text.new ≤ array_string_len text.old + 2883 }
{
    add(text, ",\"streams\":[");
    add_objects(text, streams.kept.as_slice());
    add(text, "],\"other_streams\":");
    add(text, truth(streams.others));
}

/// Adds the objects of streams, with commas between.
fn add_objects<const N: usize>(text: &mut ArrayString<N>, streams: &[RtpStream])
    requires { array_string_len text.old + 178 * length streams.now ≤ N }
    ensures text { text.new.bytes ≡ text.old.bytes ++ objects_json streams.now }
    ensures room { array_string_len text.new
        ≤ array_string_len text.old + 178 * length streams.now }
{
    let [first, rest @ ..] = streams else {
        return;
    };
    add_object(text, *first);
    add_others(text, rest);
}

/// Adds the objects of streams, a comma before each.
fn add_others<const N: usize>(text: &mut ArrayString<N>, streams: &[RtpStream])
    requires { array_string_len text.old + 178 * length streams.now ≤ N }
    ensures text { text.new.bytes ≡ text.old.bytes ++ flat_map other_json streams.now }
    ensures room { array_string_len text.new
        ≤ array_string_len text.old + 178 * length streams.now }
{
    for stream in streams {
        add_other(text, *stream);
    }
}

/// Adds the object of a stream, and a comma before it.
fn add_other<const N: usize>(text: &mut ArrayString<N>, stream: RtpStream)
    requires { array_string_len text.old + 178 ≤ N }
    ensures text { text.new.bytes ≡ text.old.bytes ++ other_json stream }
    ensures room { array_string_len text.new ≤ array_string_len text.old + 178 }
{
    add(text, ",");
    add_object(text, stream);
}

/// Adds the object of a stream: at most 177 octets.
fn add_object<const N: usize>(text: &mut ArrayString<N>, stream: RtpStream)
    requires { array_string_len text.old + 177 ≤ N }
    ensures text { text.new.bytes ≡ text.old.bytes ++ stream_json stream }
    ensures room { array_string_len text.new ≤ array_string_len text.old + 177 }
{
    add_number(text, "{\"payload_type\":", u64::from(stream.payload_type));
    add_number(text, ",\"source\":", u64::from(stream.ssrc));
    add_number(text, ",\"datagrams\":", stream.datagrams);
    add_number(text, ",\"first_timestamp\":", u64::from(stream.first));
    add_number(text, ",\"last_timestamp\":", u64::from(stream.last));
    add(text, "}");
}

/// Whether it is so, in at most five octets.
fn truth(is: bool) -> &'static str
    ensures text { result.now ≡ truth_json is }
    ensures short { length result.now ≤ 5 }
{
    if is { "true" } else { "false" }
}

/// Adds the members that tell times and the rate of so many octets.
fn add_times<const N: usize>(text: &mut ArrayString<N>, times: Times, octets: u64)
    requires { array_string_len text.old + 179 ≤ N }
    ensures text { text.new.bytes ≡ text.old.bytes ++ times_json times octets }
    ensures room { array_string_len text.new ≤ array_string_len text.old + 179 }
{
    add(text, ",\"first\":");
    add_time(text, times.first);
    add(text, ",\"last\":");
    add_time(text, times.last);
    add(text, ",\"mbit_per_second\":");
    add_rate(text, octets, times);
}

/// Adds a time in seconds, if there is one.
fn add_time<const N: usize>(text: &mut ArrayString<N>, time: Option<u64>)
    requires { array_string_len text.old + 41 ≤ N }
    ensures text { text.new.bytes ≡ text.old.bytes ++ moment_json time }
    ensures room { array_string_len text.new ≤ array_string_len text.old + 41 }
{
    match time {
        Some(time) => add_moment(text, time),
        None => add(text, "null"),
    }
}

/// Adds the rate of so many octets between the first and the last time, if it is told.
fn add_rate<const N: usize>(text: &mut ArrayString<N>, octets: u64, times: Times)
    requires { array_string_len text.old + 61 ≤ N }
    ensures text { text.new.bytes ≡ text.old.bytes ++ rate_json octets times.first times.last }
    ensures room { array_string_len text.new ≤ array_string_len text.old + 61 }
{
    if let (Some(first), Some(last)) = (times.first, times.last)
        && first < last
    {
        add_hundredths(text, rate_of(octets, last - first));
        return;
    }
    add(text, "null");
}
