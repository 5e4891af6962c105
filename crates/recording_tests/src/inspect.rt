//! A recording of many flows, inspected.
use crate::engines::{Run, sink, source};
use inspect_engine::{Form, inspect};
use pcap_file::{Envelope, write_pcap_head, write_record};
use std::alloc::{AllocError, Allocator, Global};

/// How many flows there are where growths are refused: enough that the table grows more than once,
/// and that its index has more than one node.
const FLOWS: u16 = 24;

/// A recording of one datagram of two octets of each flow, one nanosecond after the other.
fn many(global: Global) -> Result<Vec<u8>, AllocError> {
    let mut head = [0u8; 24];
    write_pcap_head(&mut head);
    let mut recording = Vec::from_slice(global, &head)?;
    let mut record = [0u8; 60];
    for flow in 0..FLOWS {
        let envelope = Envelope {
            source: [192, 0, 2, 1],
            destination: [239, 1, 1, 1],
            source_port: 5004,
            destination_port: flow,
        };
        write_record(&mut record, &envelope, u64::from(flow), b"ab");
        recording.extend_from_slice(&record)?;
    }
    Ok(recording)
}

/// What is told of it.
fn lines_of_many(global: Global) -> Result<String, AllocError> {
    let mut lines = String::new(global);
    for flow in 0..FLOWS {
        let moment = format!(in global; "0.{flow:09}")?;
        let flow = format!(in global;
            "flow 239.1.1.1:{flow}\n  datagrams 1, octets 2, RTP 0\n  from {moment} to {moment}\n"
        )?;
        lines.push_str(&flow)?;
    }
    lines.push_str("flows 24\n")?;
    Ok(lines)
}

/// Whether they are told, or `None` where memory is wanted.
pub fn are_told<A: Allocator + Copy>(global: Global, alloc: A) -> Result<Option<bool>, AllocError> {
    let mut recordings = [source(global, &many(global)?)?];
    let mut printed = sink(global)?;
    let outcome = inspect(alloc, &mut recordings, Form::Lines, &mut printed);
    let run = Run {
        outcome,
        written: sink(global)?,
        printed,
    };
    Ok(run.answered(b"", lines_of_many(global)?.as_bytes()))
}
