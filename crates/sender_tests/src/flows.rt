//! Where the video of an SDP text is sent to, and flows as texts.
use crate::checks::met;
use flow::read_flow;
use sdp_format::read_flows;
use std::alloc::{AllocError, Global};
use std::test::Fail;

/// SDP texts, and the flows of each or its fault.
const TEXTS: [(&str, &str); 19] = [
    (
        "m=video 5004 RTP/AVP 96\nc=IN IP4 239.1.1.1/64\nm=video 5006 RTP/AVP 96\n\
         c=IN IP4 239.1.1.2/64/2\nc=IN IP4 239.1.1.3\n",
        "239.1.1.1:5004 239.1.1.2:5006",
    ),
    (
        "v=0\r\nc=IN IP4 239.2.2.2/32\r\nm=video 5004 RTP/AVP 96\r\nm=video 5004 RTP/AVP 96\r\n\
         c=IN IP6 FF15::101/3 \r\n",
        "239.2.2.2:5004 [ff15::101]:5004",
    ),
    (
        "m=audio 5002 RTP/AVP 97\nc=IN IP4 239.9.9.9/32\nm=video 5004 RTP/AVP 96\n\
         m=audio 5002 RTP/AVP 97\nc=IN IP4 239.9.9.9/32\n",
        "5004",
    ),
    ("m=audio 5002 RTP/AVP 97\n", "NoVideo"),
    (
        "c=x\nm=video 1 RTP/AVP 96\nm=video 2 RTP/AVP 96\nm=video 3 RTP/AVP 96\n",
        "TooManyLegs",
    ),
    ("m=video x\nc=IN IP4 x\n", "BadMediaLine"),
    ("m=video 1 RTP/AVP 96\nm=video 2\n", "BadMediaLine"),
    (
        "m=video 1 RTP/AVP 96\nc=IN IP4 x\nm=video 2\n",
        "BadConnection",
    ),
    (
        "c=IN IP4 studio.example\nm=video 1 RTP/AVP 96\n",
        "BadConnection",
    ),
    (
        "c=IN IP6 239.1.1.1\nm=video 1 RTP/AVP 96\n",
        "BadConnection",
    ),
    (
        "c=IN IP4 ff15::101\nm=video 1 RTP/AVP 96\n",
        "BadConnection",
    ),
    (
        "c=IN IP6 fe80::1%eth0\nm=video 1 RTP/AVP 96\n",
        "BadConnection",
    ),
    // Two legs to one group and port, told by their sources (RFC 4570, 3.2.1).
    (
        "m=video 5004 RTP/AVP 96\r\nc=IN IP4 239.1.1.1/64\r\n\
         a=source-filter: incl IN IP4 239.1.1.1 192.0.2.1\r\nm=video 5004 RTP/AVP 96\r\n\
         c=IN IP4 239.1.1.1/64\r\na=source-filter: incl IN IP4 * 192.0.2.2 \r\n",
        "192.0.2.1>239.1.1.1:5004 192.0.2.2>239.1.1.1:5004",
    ),
    // The section's line counts before the session's, which counts where a section has none.
    (
        "a=source-filter: incl IN IP6 * 2001:DB8::1\nc=IN IP6 ff3e::1\nm=video 1 RTP/AVP 96\n\
         m=video 2 RTP/AVP 96\na=source-filter: incl IN IP6 FF3E:0::1 2001:db8::2\n",
        "[2001:db8::1]>[ff3e::1]:1 [2001:db8::2]>[ff3e::1]:2",
    ),
    // A line of another destination or of another type counts for none.
    (
        "a=source-filter: incl IN IP4 239.1.1.2 192.0.2.2\nc=IN IP4 239.1.1.1\n\
         a=source-filter: incl IN IP6 * 2001:db8::1\na=source-filter: incl IN IP4 * 192.0.2.1\n\
         m=video 1 RTP/AVP 96\n",
        "192.0.2.1>239.1.1.1:1",
    ),
    // Several sources, and a host's name, tell none, nor does the session's line then.
    (
        "a=source-filter: incl IN IP4 * 192.0.2.1\nc=IN IP4 239.1.1.1\nm=video 1 RTP/AVP 96\n\
         a=source-filter: incl IN IP4 239.1.1.1 192.0.2.2 192.0.2.3\nm=video 2 RTP/AVP 96\n\
         a=source-filter: incl IN IP4 239.1.1.1 studio.example\n",
        "239.1.1.1:1 239.1.1.1:2",
    ),
    // What excludes sources, names its destination by a host or lists none is passed over.
    (
        "c=IN IP4 239.1.1.1\nm=video 1 RTP/AVP 96\na=source-filter: excl IN IP4 * 192.0.2.1\n\
         a=source-filter: incl IN * studio.example 192.0.2.1\n\
         a=source-filter: incl IN IP4 239.1.1.1\na=source-filter:incl IN IP4 * 192.0.2.1\n",
        "239.1.1.1:1",
    ),
    // Without an address there is no source.
    (
        "a=source-filter: incl IN IP4 * 192.0.2.1\nm=video 1 RTP/AVP 96\n",
        "1",
    ),
    // A line of another kind of section counts for none.
    (
        "c=IN IP4 239.1.1.1\nm=audio 1 RTP/AVP 97\na=source-filter: incl IN IP4 * 192.0.2.1\n\
         m=video 1 RTP/AVP 96\nm=audio 1 RTP/AVP 97\na=source-filter: incl IN IP4 * 192.0.2.1\n",
        "239.1.1.1:1",
    ),
];

/// Texts of flows, and how each is displayed again, or `-` where it is none.
const FLOWS: [(&str, &str); 37] = [
    ("5004", "5004"),
    ("0065535", "65535"),
    ("239.1.1.1:5004", "239.1.1.1:5004"),
    ("[FF3E:0:0::1]:05004", "[ff3e::1]:5004"),
    ("[::ffff:10.0.0.1]:0", "[::ffff:10.0.0.1]:0"),
    ("65536", "-"),
    ("", "-"),
    (":5004", "-"),
    ("239.1.1.1", "-"),
    ("239.1.1.01:5004", "-"),
    ("ff3e::1:5004", "-"),
    ("[239.1.1.1]:5004", "-"),
    ("[fe80::1%0]:5004", "-"),
    ("studio:5004", "-"),
    ("192.0.2.1>239.1.1.1:5004", "192.0.2.1>239.1.1.1:5004"),
    ("[FE80:0::1]>[FF3E::1]:05004", "[fe80::1]>[ff3e::1]:5004"),
    ("192.0.2.1>5004", "192.0.2.1>5004"),
    ("[fe80::1]>239.1.1.1:5004", "[fe80::1]>239.1.1.1:5004"),
    (">239.1.1.1:5004", "-"),
    ("192.0.2.1>", "-"),
    ("192.0.2.1>239.1.1.1", "-"),
    ("192.0.2.1:5004>239.1.1.1:5004", "-"),
    ("fe80::1>[ff3e::1]:5004", "-"),
    ("192.0.2.1>192.0.2.2>239.1.1.1:5004", "-"),
    ("192.0.2.1 > 239.1.1.1:5004", "-"),
    ("eth0@5004", "eth0@5004"),
    ("eth0@239.1.1.1:05004", "eth0@239.1.1.1:5004"),
    ("enp3s0f0np0@192.0.2.1>5004", "enp3s0f0np0@192.0.2.1>5004"),
    (
        "\\Device\\NPF_{5A4FBD66-B55E-4F0E-8A4F-3C8A5E3B5C11}@[FE80:0::1]>[ff3e::1]:5004",
        "\\Device\\NPF_{5A4FBD66-B55E-4F0E-8A4F-3C8A5E3B5C11}@[fe80::1]>[ff3e::1]:5004",
    ),
    ("eth0:1@5004", "eth0:1@5004"),
    ("@5004", "-"),
    ("eth0@", "-"),
    ("eth 0@5004", "-"),
    ("eth0>1@5004", "-"),
    ("eth0@eth1@5004", "-"),
    ("192.0.2.1>eth0@5004", "-"),
    (
        "eeeeeeeeeeeeeeeeeeeeeeeeeeeeeeeeeeeeeeeeeeeeeeeeeeeeeeeeeeeeeeeee@5004",
        "-",
    ),
];

/// The flows of an SDP text, or its fault's name.
fn told(alloc: Global, text: &str) -> Result<String, AllocError> {
    match read_flows(text.as_bytes()) {
        Ok(flows) => match flows.as_slice() {
            [a, b] => format!(in alloc; "{a} {b}"),
            [a] => format!(in alloc; "{a}"),
            _ => format!(in alloc; "-"),
        },
        Err(fault) => format!(in alloc; "{}", fault.name()),
    }
}

/// How the flow of a text is displayed.
fn shown(alloc: Global, text: &str) -> Result<String, AllocError> {
    match read_flow(text.as_bytes()) {
        Some(flow) => format!(in alloc; "{flow}"),
        None => format!(in alloc; "-"),
    }
}

#[test]
fn flows_and_their_texts(rt: HostRuntime) -> Result<(), Fail> {
    for (text, wanted) in &TEXTS {
        met(&rt, told(rt.alloc(), *text)?.as_str() == *wanted);
    }
    for (text, wanted) in &FLOWS {
        met(&rt, shown(rt.alloc(), *text)?.as_str() == *wanted);
    }
    Ok(())
}
