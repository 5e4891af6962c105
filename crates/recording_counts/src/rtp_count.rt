//! What the datagrams of a flow read as RTP.
ghost use Rattle.std.specs.Prelude.{◌≡◌, ◌++◌, ◌∷◌, ℕ, List, []};
ghost use Rattle.rtp_header.specs.Grammar.{Rtp};
ghost use Rattle.recording_counts.specs.FlowCounts.{is_rtcp, rtp_said, rtp_of};

use crate::rtp_streams::Streams;
use rtp_header::read_rtp;

/// How many datagrams read as RTP (RFC 3550, 5.1), and what those say. A count stays at 2^64 - 1
/// once it is there.
#[derive(Drop)]
pub struct RtpCount {
    /// How many read as RTP.
    pub datagrams: u64,
    /// How many are of RTCP, none of which is among those.
    pub rtcp: u64,
    /// The streams of those that read as RTP.
    pub streams: Streams,
}

impl RtpCount {
    /// Of no datagrams.
    pub(crate) fn new() -> RtpCount
        ensures { result ≡ rtp_of [] }
    {
        RtpCount {
            datagrams: 0,
            rtcp: 0,
            streams: Streams::new(),
        }
    }

    /// Notes one more datagram.
    pub(crate) fn note(&mut self, payload: &[u8])
        ensures { (all : List (List ℕ)) → self.old ≡ rtp_of all
            → self.new ≡ rtp_of (all ++ payload.now ∷ []) }
    {
        if is_rtcp(payload) {
            let rtcp = self.rtcp.saturating_add(1);
            self.rtcp = rtcp;
            return;
        }
        match read_rtp(payload) {
            Ok(rtp) => {
                let datagrams = self.datagrams.saturating_add(1);
                self.datagrams = datagrams;
                self.streams.note(&rtp);
            }
            Err(_) => {}
        }
    }
}

/// Whether a datagram on the port of a stream is of RTCP: version 2 and a packet type of 200 to 204
/// (RFC 5761, 4).
pub fn is_rtcp(datagram: &[u8]) -> bool
    ensures { result ≡ is_rtcp datagram.now }
{
    datagram.len() >= 2 && datagram[0] / 64 == 2 && datagram[1] >= 200 && datagram[1] <= 204
}
