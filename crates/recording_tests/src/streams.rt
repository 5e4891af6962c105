//! The streams of a capture inspected, against a text by hand.
use crate::engines::{Run, sink, source};
use media_file::{write_front, write_record};
use st_format::Path;
use st_format::memory::MemorySource;
use std::alloc::{Allocator, Global};
use std::test::Fail;
use stream_inspection::{Form, Wanted, inspect_streams};

/// What a camera says of its video: 4 pixels in each of 2 rows, by payload type 96.
const SDP: &[u8] = b"m=video 5004 RTP/AVP 96\na=rtpmap:96 raw/90000\n\
    a=fmtp:96 sampling=YCbCr-4:2:2; width=4; height=2; exactframerate=60; depth=8; \
    colorimetry=BT709; PM=2110GPM; SSN=ST2110-20:2017\n";

/// Packets: path, moment, number, payload type and marker, and timestamp. The packets of three
/// timestamps, of which by A 65535 and 65538 don't come, and 65536 comes twice; by B 65536 doesn't,
/// and 65537 comes behind 65538. Behind them one of payload type 97.
const SENT: [(Path, u64, u32, u8, u32); 11] = [
    (Path::A, 1000, 65534, 96, 900),
    (Path::B, 1500, 65534, 96, 900),
    (Path::B, 1600, 65535, 96, 900),
    (Path::A, 1700, 65536, 96, 900),
    (Path::A, 1800, 65536, 96, 900),
    (Path::B, 1900, 65538, 96, 2400),
    (Path::A, 2000, 65537, 224, 900),
    (Path::B, 2050, 65537, 224, 900),
    (Path::B, 3000, 65539, 96, 3900),
    (Path::A, 3400, 65539, 96, 3900),
    (Path::A, 4000, 5, 97, 48),
];

/// A datagram of the upper row, of source 7.
fn datagram(number: u32, kind: u8, timestamp: u32) -> [u8; 28] {
    let mut octets = [0u8; 28];
    let number = number.to_be_bytes();
    octets[0] = 128;
    octets[1] = kind;
    octets[2] = number[2];
    octets[3] = number[3];
    octets[4..8].copy_from_slice(&timestamp.to_be_bytes());
    octets[11] = 7;
    octets[12] = number[0];
    octets[13] = number[1];
    // Eight octets, row 0, offset 0.
    octets[15] = 8;
    octets
}

/// The capture of these packets, and behind them a datagram of RTCP and one of five octets.
fn capture(global: Global) -> Result<MemorySource, Fail> {
    let mut sink = sink(global)?;
    write_front(&mut sink, SDP)?;
    for (path, moment, number, kind, timestamp) in SENT {
        write_record(&mut sink, path, moment, &datagram(number, kind, timestamp))?;
    }
    write_record(&mut sink, Path::A, 4100, &[128, 200, 0, 0])?;
    write_record(&mut sink, Path::B, 4200, &[1, 2, 3, 4, 5])?;
    Ok(source(global, sink.held())?)
}

const COLUMNS: &[u8] = b"\
stream of payload type 96 and source 7
  path    datagrams       lowest      highest         lost     repeated         late
  A               5        65534        65539            2            1            0
  B               5        65534        65539            1            0            1
  by A 2 never came, 1 came more than once, 0 came late
  by B 1 never came, 0 came more than once, 1 came late
  A alone would lose 2, B alone 1, both together 0
stream of payload type 97 and source 7
  path    datagrams       lowest      highest         lost     repeated         late
  A               1            5            5            0            0            0
  B               0            -            -            0            0            0
  nothing came by B
  A alone would lose 0, B alone 1, both together 0
timestamps of payload type 96
       source    timestamp         by A         by B       marker        ticks skew of B in nanoseconds
            7          900            4            3          yes            - 500
            7         2400            0            1           no         1500 -
            7         3900            1            1           no         1500 -400
skew of B in nanoseconds: least -400, middle -400, greatest 500, of 2 timestamps
refused 1 ShortHeader 1
refused 5 WrongPayloadType 1
RTCP 1
window 900,2400,3900
";

/// Whether the streams of the capture are told, or `None` where memory is wanted.
pub fn are_told<A: Allocator + Copy>(global: Global, alloc: A) -> Result<Option<bool>, Fail> {
    let mut captures = [capture(global)?];
    let mut printed = sink(global)?;
    let outcome = inspect_streams(
        alloc,
        Wanted::Said,
        Form::Columns,
        None,
        &mut captures,
        &[],
        &mut [],
        &mut printed,
    );
    let run = Run {
        outcome,
        written: sink(global)?,
        printed,
    };
    Ok(run.answered(b"", COLUMNS))
}
