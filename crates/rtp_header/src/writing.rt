//! Writing a fixed header.
ghost use Rattle.std.specs.Prelude.{◌≡◌, ◌^◌, ◌<◌, ◌≤◌, ◌++◌, ℕ, List, [], drop, length, take};
ghost use Rattle.rtp_header.specs.Grammar.{IsPlainRtp, fixed_text, plain_flags};
ghost use Rattle.rtp_header.specs.Views.{headed_rtp};

use crate::header::{RtpHead, VERSION};
use byteorder::{BigEndian, ByteOrder};

/// Writes the text of the fixed header over the first 12 octets.
fn write_fixed(buffer: &mut [u8], head: &RtpHead)
    requires room { 12 ≤ length buffer.old }
    requires payload_type { head.now.payload_type ≤ 127 }
    ensures text { buffer.new ≡ fixed_text plain_flags (headed_rtp head.now [])
        ++ drop 12 buffer.old }
    ensures sequence { head.now.sequence < 2 ^ 16 }
    ensures timestamp { head.now.timestamp < 2 ^ 32 }
    ensures ssrc { head.now.ssrc < 2 ^ 32 }
{
    buffer[0] = VERSION * 64;
    buffer[1] = if head.marker {
        128 + head.payload_type
    } else {
        head.payload_type
    };
    BigEndian::write_u16(&mut buffer[2..], head.sequence);
    BigEndian::write_u32(&mut buffer[4..], head.timestamp);
    BigEndian::write_u32(&mut buffer[8..], head.ssrc);
}

/// Writes a fixed header (RFC 3550, 5.1) over the first 12 octets of `buffer`: version 2 with P, X
/// and CC zero, and the head's fields. A payload goes behind it; nothing else is written.
pub fn write_rtp(buffer: &mut [u8], head: &RtpHead)
    requires room { 12 ≤ length buffer.old }
    requires payload_type { head.now.payload_type ≤ 127 }
    // Whatever payload follows them, the 12 octets and it are a datagram that says this.
    ensures header { (payload : List ℕ) →
        IsPlainRtp (take 12 buffer.new ++ payload) (headed_rtp head.now payload) }
    // The octets behind them stay.
    ensures kept { drop 12 buffer.new ≡ drop 12 buffer.old }
    ensures length { length buffer.new ≡ length buffer.old }
{
    write_fixed(buffer, head);
}
