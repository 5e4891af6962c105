//! The streams of RTP in a flow, as far as there is room.
ghost use Rattle.std.specs.Prelude.{◌≡◌, ◌<◌, ◌++◌, ◌∷◌, List, [], None, IfSome, length, map};
ghost use Rattle.std.specs.List.{position_from};
ghost use Rattle.rtp_header.specs.Grammar.{Rtp};
ghost use Rattle.rtp_header.specs.Views.{seen_rtp};
ghost use Rattle.recording_counts.specs.FlowStreams.{stream_key_of, rtp_streams_of};
ghost use Rattle.recording_counts.specs.Streams.{is_same};
ghost use Rattle.recording_counts.specs.Tables.{first_index};

use crate::rtp_stream::RtpStream;
use arrayvec::ArrayVec;
use rtp_header::RtpView;

/// How many streams of a flow are kept at most (own).
pub const MOST_STREAMS: usize = 16;

/// Streams in the order of their first coming, the first 16 of them.
#[derive(Drop)]
pub struct Streams {
    pub kept: ArrayVec<RtpStream, MOST_STREAMS>,
    /// Whether a packet came of a stream that isn't kept.
    pub others: bool,
}

impl Streams {
    /// Of no packets.
    pub(crate) fn new() -> Streams
        ensures { result ≡ rtp_streams_of [] }
    {
        Streams {
            kept: ArrayVec::new(),
            others: false,
        }
    }

    /// Notes one more packet.
    pub(crate) fn note(&mut self, rtp: &RtpView<'_>)
        ensures { (said : List Rtp) → self.old ≡ rtp_streams_of said
            → self.new ≡ rtp_streams_of (said ++ seen_rtp rtp.now ∷ []) }
    {
        match place_of_stream(self.kept.as_slice(), rtp.payload_type, rtp.ssrc) {
            Some(place) => {
                let streams = self.kept.as_mut_slice();
                streams[place].note(rtp.timestamp);
            }
            None => self.open(rtp),
        }
    }

    /// Notes a packet of a stream that isn't among those that are kept.
    fn open(&mut self, rtp: &RtpView<'_>)
        requires { first_index is_same
            (record { payload_type = rtp.now.payload_type; ssrc = rtp.now.ssrc })
            (map stream_key_of self.old.kept.items) ≡ None }
        ensures { (said : List Rtp) → self.old ≡ rtp_streams_of said
            → self.new ≡ rtp_streams_of (said ++ seen_rtp rtp.now ∷ []) }
    {
        if self.kept.is_full() {
            self.others = true;
        } else {
            let stream = RtpStream::new(rtp.payload_type, rtp.ssrc, rtp.timestamp);
            self.kept.push(stream);
        }
    }
}

/// The place of the stream of a payload type and a source, where it is kept.
fn place_of_stream(streams: &[RtpStream], payload_type: u8, ssrc: u32) -> Option<usize>
    ensures place { result ≡ first_index is_same
        (record { payload_type = payload_type; ssrc = ssrc }) (map stream_key_of streams.now) }
    ensures within { IfSome result (λ i. i < length streams.now) }
{
    first_of(streams, payload_type, ssrc)
}

/// `place_of_stream`, by the walk that finds it.
fn first_of(streams: &[RtpStream], payload_type: u8, ssrc: u32) -> Option<usize>
    ensures first { result ≡ position_from (λ s. is_same
        (record { payload_type = payload_type; ssrc = ssrc }) (stream_key_of s)) 0 streams.now }
    ensures within { IfSome result (λ i. i < length streams.now) }
{
    streams.iter().position(|stream| payload_type == stream.payload_type && ssrc == stream.ssrc)
}
