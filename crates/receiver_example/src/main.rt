//! A receiver of two lossy paths: it is opened by an SDP and takes the datagrams of path A and then
//! those of path B, and after each path it is asked which columns of which rows are missing.
#![tactic(auto)]

use anyhow::Result;
use woqtarish::describe::read_sdp;
use woqtarish::receive::{Frame, Opening, Path};

/// 4:2:2 of 8 bits, 8 columns by 2 rows, payload type 96.
const SDP: &[u8] = b"m=video 5004 RTP/AVP 96\na=rtpmap:96 raw/90000\n\
    a=fmtp:96 sampling=YCbCr-4:2:2; width=8; height=2; exactframerate=60; depth=8; \
    colorimetry=BT709; PM=2110GPM; SSN=ST2110-20:2017\n";

/// The timestamp of the picture, in ticks of 90 kHz.
const TIMESTAMP: u32 = 900;

/// Path A brought columns 0 to 3 of row 0, and of row 1.
const BY_A: [&[u8]; 2] = [
    b"\x80\x60\xFF\xFE\0\0\x03\x84\0\0\0\x01\0\0\0\x08\0\0\0\0\x80\x10\x80\x11\x80\x12\x80\x13",
    b"\x80\x60\0\0\0\0\x03\x84\0\0\0\x01\0\x01\0\x08\0\x01\0\0\x80\x18\x80\x19\x80\x1A\x80\x1B",
];

/// Path B brought columns 4 to 7 of each row, and between them the first datagram of path A.
const BY_B: [&[u8]; 3] = [
    b"\x80\x60\xFF\xFF\0\0\x03\x84\0\0\0\x01\0\0\0\x08\0\0\0\x04\x80\x14\x80\x15\x80\x16\x80\x17",
    b"\x80\x60\xFF\xFE\0\0\x03\x84\0\0\0\x01\0\0\0\x08\0\0\0\0\x80\x10\x80\x11\x80\x12\x80\x13",
    b"\x80\xE0\0\x01\0\0\x03\x84\0\0\0\x01\0\x01\0\x08\0\x01\0\x04\x80\x1C\x80\x1D\x80\x1E\x80\x1F",
];

fn main(rt: HostRuntime) -> Result<()> {
    let alloc = rt.alloc();
    let sdp = read_sdp(alloc, SDP)?;
    let mut receiver = Opening::new(sdp.format, sdp.payload_type)
        .window(&[TIMESTAMP])
        .open(alloc)?;
    for (path, datagrams) in [(Path::A, BY_A.as_slice()), (Path::B, BY_B.as_slice())] {
        for datagram in datagrams {
            if let Err(refusal) = receiver.take(path, *datagram) {
                println!(rt; "refused: {refusal}")?;
            }
        }
        for (timestamp, frame) in receiver.frames() {
            println!(rt; "frame {timestamp} after path {path}: {}", frame.counts())?;
            print_missing(&rt, frame)?;
        }
    }
    Ok(())
}

/// Prints the columns of which nothing is known, row by row.
fn print_missing(rt: &HostRuntime, frame: &Frame) -> Result<()> {
    for row in 0..frame.format().height() {
        for columns in frame.missing_runs(row) {
            let (first, last) = (columns.start, columns.end - 1);
            println!(rt; "row {row} columns {first} to {last} are missing")?;
        }
    }
    Ok(())
}
