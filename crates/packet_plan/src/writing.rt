//! Writing the datagram of a packet.
ghost use Rattle.std.specs.Prelude.{◌≡◌, ◌<◌, ◌≤◌, ◌+◌, ◌*◌, ◌/◌, ◌%◌, ◌^◌, ◌++◌, []};
ghost use Rattle.std.specs.Prelude.{length, map, take, drop, All};
ghost use Rattle.std.specs.List.{AllByRecursion, flat_map};
ghost use Rattle.st_format.specs.Pgroup.{bits_of};
ghost use Rattle.st_format.specs.Picture.{IsPicture};
ghost use Rattle.st_format.specs.Samples.{octets_in};
ghost use Rattle.pgroup_pack.specs.Packing.{Agree, Fit};
ghost use Rattle.rtp_header.specs.Grammar.{fixed_text, plain_flags};
ghost use Rattle.payload_header.specs.Writing.{payload_front};
ghost use Rattle.packet_plan.specs.Plan.{group_octets, packet_octets};
ghost use Rattle.packet_plan.specs.Sent.{run_values};
ghost use Rattle.packet_plan.specs.Text.{AreRuns, HasHead, IsStamp, datagram_text};
ghost use Rattle.packet_plan.specs.Text.{head_of as head_at, header_of, run_octets};

use crate::greedy::group_octets_of;
use crate::raster::Raster;
use crate::run::PacketRun;
use crate::stamp::Stamp;
use payload_header::{SegmentHead, write_payload_header};
use pgroup_pack::PackedPicture;
use rtp_header::{RtpHead, write_rtp};
use st_format::{Format, Picture, are_octets};
use std::alloc::Allocator;

/// The octets of an RTP header without sources and extension (RFC 3550, 5.1).
const RTP_OCTETS: usize = 12;

/// The head of the segment that carries a run: its column in pixels, its length in octets.
fn segment_head(format: &Format, run: PacketRun) -> SegmentHead
    requires { HasHead format.now run }
    ensures { result ≡ head_at format.now run }
{
    SegmentHead {
        row: run.row as u16,
        offset: (run.first * format.pgroup().pixels) as u16,
        octets: (run.groups * group_octets_of(format)) as u16,
    }
}

/// The heads of the segments that carry runs, one for each run; those behind are of no meaning.
fn heads_of(format: &Format, runs: &[PacketRun]) -> [SegmentHead; 3]
    requires few { length runs.now ≤ 3 }
    requires heads { AllByRecursion (HasHead format.now) runs.now }
    ensures { take (length runs.now) result ≡ map (head_at format.now) runs.now }
{
    let mut heads = [SegmentHead {
        row: 0,
        offset: 0,
        octets: 0,
    }; 3];
    let mut count = 0;
    let mut rest = runs;
    while let [run, more @ ..] = rest {
        heads[count] = segment_head(format, *run);
        count += 1;
        rest = more;
    }
    heads
}

/// Writes the RTP header and the front of the payload, and answers how long they are: 14 octets and
/// 6 for each segment.
fn write_datagram_front(
    buf: &mut [u8],
    format: &Format,
    runs: &[PacketRun],
    stamp: Stamp,
    number: u32,
    is_last: bool,
) -> usize
    requires room { 14 + 6 * length runs.now ≤ length buf.old }
    requires runs { AreRuns format.now runs.now }
    requires payload_type { stamp.payload_type ≤ 127 }
    ensures length { length buf.new ≡ length buf.old }
    ensures value { result ≡ 14 + 6 * length runs.now }
    ensures stamp { IsStamp stamp }
    ensures text { take result buf.new ≡ fixed_text plain_flags (header_of stamp number is_last [])
        ++ payload_front (number / 65536) (map (head_at format.now) runs.now) }
    ensures behind { drop result buf.new ≡ drop result buf.old }
{
    let head = RtpHead {
        marker: is_last,
        payload_type: stamp.payload_type,
        sequence: (number % 0x1_0000) as u16,
        timestamp: stamp.timestamp,
        ssrc: stamp.ssrc,
    };
    write_rtp(buf, &head);
    let heads = heads_of(format, runs);
    let extended = (number / 0x1_0000) as u16;
    let front = write_payload_header(&mut buf[RTP_OCTETS..], extended, &heads[..runs.len()]);
    RTP_OCTETS + front
}

/// The values of a run, where they lie in the picture: none is copied.
fn run_samples<A: Allocator>(picture: &Picture<A>, run: PacketRun) -> &[u16]
    requires { HasHead picture.now.format run }
    ensures value { result.now ≡ run_values picture.now run }
    ensures fit { All (λ v. v < 2 ^ bits_of picture.now.format.depth) result.now }
{
    let format = picture.format();
    let samples = format.pgroup().samples;
    let start = (run.row * format.row_groups() + run.first) as usize * samples;
    let (_, from) = picture.samples().split_at(start);
    let (values, _) = from.split_at(run.groups as usize * samples);
    values
}

fn write_values(format: &Format, values: &[u16], octets: &mut [u8])
    requires lengths { Agree format.now (length octets.old) (length values.now) }
    requires fit { Fit (bits_of format.now.depth) values.now }
    ensures { octets.new ≡ octets_in (bits_of format.now.depth) values.now }
{
    pgroup_pack::pack(format, values, octets);
}

/// Writes the octets of a run behind the first `at`, and answers where they end.
pub(crate) fn write_run<A: Allocator>(
    buf: &mut [u8],
    at: usize,
    picture: &Picture<A>,
    run: PacketRun,
) -> usize
    requires room { at + length (run_octets picture.now run) ≤ length buf.old }
    requires head { HasHead picture.now.format run }
    ensures length { length buf.new ≡ length buf.old }
    ensures value { result ≡ at + length (run_octets picture.now run) }
    ensures written { take result buf.new ≡ take at buf.old ++ run_octets picture.now run }
    ensures behind { drop result buf.new ≡ drop result buf.old }
{
    let format = picture.format();
    let values = run_samples(picture, run);
    let end = at + (run.groups * group_octets_of(&format)) as usize;
    write_values(&format, values, &mut buf[at..end]);
    end
}

/// The octets of a run, where they lie in the picture: none is copied.
fn packed_run<A: Allocator>(picture: &PackedPicture<A>, run: PacketRun) -> &[u8]
    requires { HasHead picture.now.format run }
    ensures { result.now ≡ run_octets picture.now run }
{
    let format = picture.format();
    let size = group_octets_of(&format) as usize;
    let start = (run.row * format.row_groups() + run.first) as usize * size;
    let octets = picture.octets();
    are_octets(octets);
    let (_, from) = octets.split_at(start);
    let (of_run, _) = from.split_at(run.groups as usize * size);
    of_run
}

/// Writes the octets of a run behind the first `at`, and answers where they end. They are copied.
pub(crate) fn copy_run<A: Allocator>(
    buf: &mut [u8],
    at: usize,
    picture: &PackedPicture<A>,
    run: PacketRun,
) -> usize
    requires room { at + length (run_octets picture.now run) ≤ length buf.old }
    requires head { HasHead picture.now.format run }
    ensures length { length buf.new ≡ length buf.old }
    ensures value { result ≡ at + length (run_octets picture.now run) }
    ensures written { take result buf.new ≡ take at buf.old ++ run_octets picture.now run }
    ensures behind { drop result buf.new ≡ drop result buf.old }
{
    let octets = packed_run(picture, run);
    let end = at + octets.len();
    buf[at..end].copy_from_slice(octets);
    end
}

/// Writes the octets of runs behind the first `at`, and answers where they end.
fn write_runs<P: Raster>(buf: &mut [u8], at: usize, picture: &P, runs: &[PacketRun]) -> usize
    requires room { at + length (flat_map (run_octets (P.values picture.now)) runs.now)
        ≤ length buf.old }
    requires heads { AllByRecursion (HasHead (P.values picture.now).format) runs.now }
    ensures length { length buf.new ≡ length buf.old }
    ensures value { result ≡ at + length (flat_map (run_octets (P.values picture.now)) runs.now) }
    ensures written { take result buf.new
        ≡ take at buf.old ++ flat_map (run_octets (P.values picture.now)) runs.now }
    ensures behind { drop result buf.new ≡ drop result buf.old }
{
    let mut end = at;
    let mut rest = runs;
    while let [run, more @ ..] = rest {
        end = picture.write_run(*run, buf, end);
        rest = more;
    }
    end
}

/// Writes the datagram of a packet, and answers how long it is.
pub(crate) fn write_datagram<P: Raster>(
    buf: &mut [u8],
    picture: &P,
    runs: &[PacketRun],
    stamp: Stamp,
    index: u32,
    is_last: bool,
) -> usize
    requires room { packet_octets (P.values picture.now).format runs.now ≤ length buf.old }
    requires runs { AreRuns (P.values picture.now).format runs.now }
    requires payload_type { stamp.payload_type ≤ 127 }
    ensures length { length buf.new ≡ length buf.old }
    ensures value { result ≡ packet_octets (P.values picture.now).format runs.now }
    ensures stamp { IsStamp stamp }
    ensures picture { IsPicture (P.values picture.now) }
    ensures text { take result buf.new
        ≡ datagram_text (P.values picture.now) stamp index is_last runs.now }
    ensures behind { drop result buf.new ≡ drop result buf.old }
{
    let number = stamp.first.wrapping_add(index);
    let at = write_datagram_front(buf, &picture.format(), runs, stamp, number, is_last);
    write_runs(buf, at, picture, runs)
}
