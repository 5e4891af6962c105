//! What is said of a stream whose colours are the usual ones.
ghost use Rattle.std.specs.Prelude.{◌≡◌, ◌≤◌, codes};
ghost use Rattle.st_format.specs.Fields.{fields_of};
ghost use Rattle.sdp_format.specs.Views.{description};
ghost use Rattle.sdp_writing.specs.Written.{ports, usual_description};

use arrayvec::ArrayVec;
use flow::Flow;
use sdp_format::{Range, Sdp};
use st_format::Format;

/// The ports of the legs: one, or two.
fn ports_of(a: Flow, b: Option<Flow>) -> ArrayVec<u16, 2>
    ensures { result.items ≡ ports a b }
{
    let mut ports = ArrayVec::new();
    ports.push(a.port);
    if let Some(b) = b {
        ports.push(b.port);
    }
    ports
}

/// The usual colorimetry, `BT709` (SMPTE ST 2110-20, SDP).
fn bt709() -> ArrayVec<u8, 32>
    ensures { result.items ≡ codes "BT709" }
{
    let mut name = ArrayVec::new();
    name.try_extend_from_slice(b"BT709").unwrap();
    name
}

/// What an SDP text says of a stream of this format and payload type that goes to these legs: its
/// colorimetry is `BT709`, and its samples have the narrow range (SMPTE ST 2110-20, SDP).
pub fn usual_sdp(payload_type: u8, format: Format, a: Flow, b: Option<Flow>) -> Sdp
    requires { payload_type ≤ 127 }
    ensures { description result ≡ usual_description payload_type (fields_of format) a b }
{
    Sdp {
        ports: ports_of(a, b),
        payload_type,
        format,
        range: Range::Narrow,
        colorimetry: bt709(),
    }
}
