//! Opening a file of datagrams, of whichever kind it is.
ghost use Rattle.std.specs.Prelude.{◌≡◌, ◌≤◌, ◌<◌, ◌++◌, ℕ, List, [], Option, None, Some};
ghost use Rattle.std.specs.Prelude.{true, false, length, take, vec_len, IfErr, IfOk, MatchResult};
ghost use Rattle.flow.specs.declared.flows.Flows.{Flows as Ways};
ghost use Rattle.recording_counts.specs.LeftOut.{left_out_of};
ghost use Rattle.recording_reader.specs.Kinds.{is_magic};
ghost use Rattle.recording_reader.specs.Opening.{CountsOpening, IsByFlows, StopsOpening};
ghost use Rattle.recording_reader.specs.Ways.{BeginsWay, HasSpace, left_out_by};

use crate::fault::{FileOpeningFault, ReadingFault};
use crate::kinds::is_magic;
use crate::room::Room;
use crate::way::{FileKind, Track};
use flow::Flows;
use media_file::{FileFault, read_front_behind};
use pcap_file::{MOST_PACKET, open_behind};
use recording_counts::LeftOut;
use st_format::{ByteSource, MOST_DATAGRAM, read_whole};
use std::alloc::Allocator;

/// A file that was opened, and how many octets its text has.
#[derive(Drop)]
pub(crate) struct Begun<A: Allocator> {
    pub way: FileKind,
    pub room: Room<A>,
    pub text_len: usize,
}

/// Opens a file: reads what stands before all records. Its text then stands at the front of `text`.
pub(crate) fn begin<A: Allocator, S: ByteSource>(
    alloc: A,
    flows: Option<Flows>,
    source: &mut S,
    text: &mut [u8],
) -> Result<Begun<A>, FileOpeningFault>
    requires { 65535 ≤ length text.old }
    ensures room { length text.new ≡ length text.old }
    ensures begins { IfOk result (λ b. BeginsWay b.way flows (S.gave source.old) (S.gave source.new)
        (S.ended source.new) (take b.text_len text.new)) }
    ensures text_len { IfOk result (λ b. b.text_len < 65536) }
    ensures found { IfOk result (λ b. b.room.found ≡ None) }
    ensures roomy { IfOk result (λ b. HasSpace b.way (vec_len b.room.octets)) }
    ensures left_out { IfOk result (λ b. left_out_by b.way ≡ left_out_of []) }
    ensures fault { IfErr result (λ f. StopsOpening flows (S.gave source.old) (S.gave source.new)
        (S.ended source.new) f) }
    ensures by_flows { IfErr result (λ f. IsByFlows flows f) }
    ensures counted { MatchResult result (λ _. S.failures source.new ≡ S.failures source.old)
        (λ f. CountsOpening f (S.failures source.old) (S.failures source.new)) }
    ensures names { S.names source.new ≡ S.names source.old }
{
    let mut four = [0u8; 4];
    if read_whole(source, &mut four)? < 4 {
        return Err(FileOpeningFault::Reading(ReadingFault::Capture(FileFault::Truncated)));
    }
    if !is_magic(&four) {
        return begin_capture(alloc, source, &four, text);
    }
    match flows {
        Some(flows) => begin_recording(alloc, flows, source, &four),
        None => Err(FileOpeningFault::NoFlows),
    }
}

/// Opens a capture of which the first four octets were read.
fn begin_capture<A: Allocator, S: ByteSource>(
    alloc: A,
    source: &mut S,
    four: &[u8],
    text: &mut [u8],
) -> Result<Begun<A>, FileOpeningFault>
    requires room { 65535 ≤ length text.old }
    requires four { length four.now ≡ 4 }
    requires other { is_magic four.now ≡ false }
    ensures room { length text.new ≡ length text.old }
    ensures begins { IfOk result (λ b. (before : List ℕ) (flows : Option Ways)
        → S.gave source.old ≡ before ++ four.now
        → BeginsWay b.way flows before (S.gave source.new) (S.ended source.new)
        (take b.text_len text.new)) }
    ensures text_len { IfOk result (λ b. b.text_len < 65536) }
    ensures found { IfOk result (λ b. b.room.found ≡ None) }
    ensures roomy { IfOk result (λ b. HasSpace b.way (vec_len b.room.octets)) }
    ensures left_out { IfOk result (λ b. left_out_by b.way ≡ left_out_of []) }
    ensures fault { IfErr result (λ f. (before : List ℕ) (flows : Option Ways)
        → S.gave source.old ≡ before ++ four.now
        → StopsOpening flows before (S.gave source.new) (S.ended source.new) f) }
    ensures by_flows { IfErr result (λ f. (flows : Option Ways) → IsByFlows flows f) }
    ensures counted { MatchResult result (λ _. S.failures source.new ≡ S.failures source.old)
        (λ f. CountsOpening f (S.failures source.old) (S.failures source.new)) }
    ensures names { S.names source.new ≡ S.names source.old }
{
    let room = Room::new(alloc, MOST_DATAGRAM)?;
    let text_len = read_front_behind(source, four, text)?;
    Ok(Begun {
        way: FileKind::Capture,
        room,
        text_len,
    })
}

/// Opens a recording of which the first four octets were read.
fn begin_recording<A: Allocator, S: ByteSource>(
    alloc: A,
    flows: Flows,
    source: &mut S,
    four: &[u8],
) -> Result<Begun<A>, FileOpeningFault>
    requires four { length four.now ≡ 4 }
    requires magic { is_magic four.now ≡ true }
    ensures begins { IfOk result (λ b. (before : List ℕ) → S.gave source.old ≡ before ++ four.now
        → BeginsWay b.way (Some flows) before (S.gave source.new) (S.ended source.new) []) }
    ensures text_len { IfOk result (λ b. b.text_len ≡ 0) }
    ensures found { IfOk result (λ b. b.room.found ≡ None) }
    ensures roomy { IfOk result (λ b. HasSpace b.way (vec_len b.room.octets)) }
    ensures left_out { IfOk result (λ b. left_out_by b.way ≡ left_out_of []) }
    ensures fault { IfErr result (λ f. (before : List ℕ) → S.gave source.old ≡ before ++ four.now
        → StopsOpening (Some flows) before (S.gave source.new) (S.ended source.new) f) }
    ensures by_flows { IfErr result (λ f. IsByFlows (Some flows) f) }
    ensures counted { MatchResult result (λ _. S.failures source.new ≡ S.failures source.old)
        (λ f. CountsOpening f (S.failures source.old) (S.failures source.new)) }
    ensures names { S.names source.new ≡ S.names source.old }
{
    let mut room = Room::new(alloc, MOST_PACKET)?;
    let layout = open_behind(source, four, &mut room.octets)?;
    Ok(Begun {
        way: FileKind::Recording(Track {
            flows,
            layout,
            left_out: LeftOut::new(),
        }),
        room,
        text_len: 0,
    })
}
