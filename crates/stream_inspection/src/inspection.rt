//! What is counted of files.
ghost use Rattle.std.specs.Prelude.{◌∷◌, [], OnOk, option_to_list};
ghost use Rattle.media_file.specs.Writer.{entry};
ghost use Rattle.stream_inspection.specs.Inspected.{IsInspected, Notes, NotesPacket};
ghost use Rattle.stream_inspection.specs.Arrivals.{arrival};
ghost use Rattle.stream_inspection.specs.declared.target.Target.{Target as TargetValue};

use crate::looking::{Look, look_at};
use crate::probes::ProbeTable;
use crate::stream_tables::StreamTables;
use crate::target::Target;
use path_receiver::{Observer, Tally};
use recording_counts::{Packet, TimestampTable, is_rtcp};
use recording_reader::DatagramReader;
use st_format::{ByteSource, Path};
use std::alloc::{AllocError, Allocator};

/// What is counted of the datagrams of files.
#[derive(Drop)]
pub struct Inspection<A: Allocator> {
    /// What came of each stream of RTP, whatever its payload type.
    pub streams: StreamTables<A>,
    /// The timestamps of the packets with the payload type.
    pub timestamps: TimestampTable<A>,
    /// By which the skew of the paths is told, of the same packets.
    pub probes: ProbeTable<A>,
    /// What a receiver of the format answers to the datagrams that aren't RTCP.
    pub tally: Tally,
    /// How many datagrams are RTCP. It stays at 2^64 - 1 once it is there.
    pub controls: u64,
}

impl<A: Allocator + Copy> Inspection<A> {
    /// Of no datagrams.
    pub(crate) fn new(alloc: A) -> Inspection<A>
        ensures { (t : TargetValue) → IsInspected t result [] }
    {
        Inspection {
            streams: StreamTables::new(alloc),
            timestamps: TimestampTable::new(alloc),
            probes: ProbeTable::new(alloc),
            tally: Tally::new(),
            controls: 0,
        }
    }

    /// Notes the datagram that a reader has at hand, where it has one.
    ///
    /// # Errors
    ///
    /// That memory was wanted.
    pub(crate) fn note_at_hand<B: Allocator, S: ByteSource>(
        &mut self,
        target: &Target,
        reader: &DatagramReader<B, S>,
    ) -> Result<(), AllocError>
        ensures { OnOk result (Notes target.now (option_to_list reader.now.at_hand) self.old
            self.new) }
    {
        match reader.record() {
            Some(record) => self.note(target, record.path, record.moment, record.octets),
            None => Ok(()),
        }
    }

    /// Notes one more datagram, by the path by which it came and the moment, in nanoseconds, 0
    /// where none is known.
    ///
    /// # Errors
    ///
    /// That memory was wanted.
    pub(crate) fn note(
        &mut self,
        target: &Target,
        path: Path,
        moment: u64,
        octets: &[u8],
    ) -> Result<(), AllocError>
        ensures { OnOk result (Notes target.now (entry path moment octets.now ∷ []) self.old
            self.new) }
    {
        if is_rtcp(octets) {
            self.controls = self.controls.saturating_add(1);
            return Ok(());
        }
        let Look { answer, packet } = look_at(target, path, octets);
        self.tally.note(answer);
        match packet {
            Some(packet) => self.note_packet(target, &packet, moment),
            None => Ok(()),
        }
    }

    /// Notes one more packet; its timestamp and its moment only if it has the payload type.
    fn note_packet(
        &mut self,
        target: &Target,
        packet: &Packet,
        moment: u64,
    ) -> Result<(), AllocError>
        ensures { OnOk result (NotesPacket target.now (arrival packet.now moment) self.old
            self.new) }
    {
        self.streams.note(packet)?;
        if packet.payload_type != target.payload_type {
            return Ok(());
        }
        self.timestamps.note(packet)?;
        self.probes.note(packet, moment)
    }
}
