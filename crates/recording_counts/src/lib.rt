//! What is counted of recordings: flows of UDP, streams of RTP in them, by path and by timestamp,
//! and packets that are left out.
//!
//! - Flows: how many datagrams and octets each has, which streams of RTP, and when they came
//!   (`flow_counts`); that as text, for a person (`count_text`) or as an object of JSON
//!   (`count_json`).
//! - Streams: the packets of one payload type and one source that came by two paths, their numbers
//!   across the wrap (`streams_of`), and their timestamps (`timestamps_of`).
//! - Packets that are left out, by the reason (`left_out_of`).
#![tactic(auto)]

mod flow_count;
mod flow_json;
mod flow_lines;
mod flow_table;
mod left_out;
mod noted;
mod number_set;
mod number_text;
mod numbering;
mod omission;
mod packet;
mod path_count;
mod rtp_count;
mod rtp_stream;
mod rtp_streams;
mod stream;
mod streams;
mod table;
mod times;
mod timestamp;
mod timestamps;

pub use flow_count::FlowCount;
pub use flow_json::{CountJson, add_count_json};
pub use flow_lines::{FLOW_TEXT, add_count_lines};
pub use flow_table::FlowTable;
pub use left_out::{LEFT_OUT_TEXT, LeftOut, add_left_out};
pub use noted::Noted;
pub use number_set::{NumberSet, Run};
pub use numbering::number_after;
pub use omission::Omission;
pub use packet::{Packet, StreamKey, TimestampKey};
pub use path_count::{Came, PathCount, greatest};
pub use rtp_count::{RtpCount, is_rtcp};
pub use rtp_stream::RtpStream;
pub use rtp_streams::{MOST_STREAMS, Streams};
pub use stream::StreamCount;
pub use streams::StreamTable;
pub use times::Times;
pub use timestamp::TimestampCount;
pub use timestamps::TimestampTable;
