//! The door to the library: the names that its user needs, each in the module of its task.
//!
//! ```
//! use anyhow::Result;
//! use woqtarish::describe::read_sdp;
//! use woqtarish::receive::{Opening, Path};
//!
//! /// Prints which columns of which rows are missing of a picture that came by two paths.
//! fn tell(rt: &HostRuntime, sdp: &[u8], timestamp: u32, came: &[(Path, &[u8])]) -> Result<()> {
//!     let alloc = rt.alloc();
//!     let sdp = read_sdp(alloc, sdp)?;
//!     let mut receiver = Opening::new(sdp.format, sdp.payload_type)
//!         .window(&[timestamp])
//!         .open(alloc)?;
//!     for (path, datagram) in came {
//!         if let Err(refusal) = receiver.take(*path, *datagram) {
//!             println!(rt; "refused: {refusal}")?;
//!         }
//!     }
//!     for (timestamp, frame) in receiver.frames() {
//!         for row in 0..frame.format().height() {
//!             for columns in frame.missing_runs(row) {
//!                 let (first, last) = (columns.start, columns.end - 1);
//!                 println!(rt; "{timestamp}: row {row} columns {first} to {last} are missing")?;
//!             }
//!         }
//!     }
//!     Ok(())
//! }
//! ```
//!
//! A crate that calls it lists `woqtarish` in crates.txt. The program `receiver_example` is the
//! same with a picture of its own. A clause that is written above it names the definitions as
//! `Rattle.woqtarish.specs.Frames`; where several libraries have a file of one name, the file has
//! the library's word before it, as `SdpGrammar` and `ReceiverGrammar`.
#![tactic(auto)]

/// What video is: its format, its samples in octets, and pictures.
pub mod formats {
    pub use pgroup_pack::{PackedPicture, pack, sample_at, unpack};
    pub use st_format::{
        Depth, Format, FormatFault, FormatTextFault, Pgroup, Picture, PictureFault, Rate, Sampling,
        WordFault, fill_samples,
    };
}

/// SDP texts: what one announces, where it is at fault, and the fmtp line of what was read; and
/// texts that are written of a stream.
pub mod describe {
    pub use sdp_format::{
        FlowsFault, Located, Place, Range, Sdp, SdpFault, fmtp_text, read_flows, read_located,
        read_sdp,
    };
    pub use sdp_writing::{usual_sdp, write_sdp};
}

/// Receivers of two paths: opened, given datagrams one by one or from a source, merged, moved on;
/// and their frames, which say what is known of each sample, and list what is missing or contested.
pub mod receive {
    pub use frame_assembly::{
        Base, Cell, ContestedSamples, Counts, Frame, GroupState, MissingRuns,
    };
    pub use path_merge::{
        MOST_TIMESTAMPS, Observer, OpenFault, OpenedUnlike, Opening, ReceiveFault, Received,
        Receiver, Refusal, Refusals, SlideFault, Taken, WindowFrames, receive, receive_each,
    };
    pub use payload_header::PayloadFault;
    pub use rtp_header::RtpFault;
    pub use st_format::Path;
}

/// Receivers whose window follows a stream of which no timestamp is known before: frames, oldest
/// first, one by one or from a source into a sink.
pub mod follow {
    pub use following::{
        FollowFault, FollowObserver, FollowTally, Followed, Follower, FrameFault, FrameSink,
        FrameSinkFault, MemoryFrames, Restarts, Shown, StreamFault, TEN_SECONDS, TurnTaken,
        Unobserved, WindowNeed, finish, follow, follow_eagerly, goes_early, hand_out, take_turn,
    };
}

/// Which packet numbers came, and the runs of those that did not.
pub mod numbers {
    pub use path_merge::{MAX_COUNT, Noted, SeqMap, SeqMapFault};
}

/// Schedules of two paths, played before they happen.
pub mod rehearse {
    pub use path_merge::{Event, Handed, PlayFault, Played, play};
}

/// Pictures cut into packets, and sent.
pub mod send {
    pub use packet_plan::{PacketRun, Plan, PlanFault, Raster, SendFault, Stamp, send_frame};
}

/// Pictures made of pictures and of frames: range, gain, matrix, wipe and key.
pub mod process {
    pub use bt709_fixed::{
        ColourFault, RangeKind, as_ycc422, as_ycc444, gain, gained_copy, limit, limited_copy,
        scale_of, to_ycc422, to_ycc444,
    };
    pub use key_mix::{
        Axis, Job, JobFault, JobInput, PreparedJob, SendJobFault, WipeShape, key, run_job,
        send_job, wipe,
    };
}

/// Captures, pictures and receivers as files.
pub mod files {
    pub use capture_file::{
        Capture, CaptureReader, CaptureWriter, FileFault, Paths, Record, RecordHead, Standing,
        Version, load_receiver, migrate_capture, read_capture, read_packed_picture, read_picture,
        save_receiver, write_capture, write_picture, write_record,
    };
}

/// Pictures in forms that other tools read and write: YUV4MPEG2 streams of YCbCr, portable pixmaps
/// of RGB; frames in these, settled, or as a picture that marks what is missing and contested.
pub mod forms {
    pub use marked_view::marked_picture;
    pub use picture_forms::{
        FormFault, Standing, StreamReader, format_of_head, read_pixmap_head, read_pixmap_raster,
        read_y4m_frame, read_y4m_head, write_pixmap, write_pixmap_samples, write_y4m_frame,
        write_y4m_head, write_y4m_samples,
    };
    pub use settled_forms::write_settled;
}

/// Recordings of other tools, as pcap and pcapng: their packets, as datagrams of UDP, and the flows
/// of the two paths; and a reader that gives the datagrams of these, or of a capture, to a
/// receiver.
pub mod recordings {
    pub use flow::{Flow, Flows, read_flow};
    pub use interface_name::InterfaceName;
    pub use pcap_file::{
        ByteOrder, DatagramView, Envelope, Envelope6, HEADS, HEADS6, INTERFACES, Interface,
        IpVersion, Layout, Link, LinkView, NoDatagram, PCAP_HEAD, Packet, PacketHead, PacketView,
        PcapHead, RECORD_HEAD, RecordingFault, Section, Step, next_block, next_packet, next_record,
        open_behind, open_recording, packet_datagram, read_datagram, read_first_section, read_link,
        read_packet, read_pcap, read_pcap_head, read_record_head, read_udp, record_begins,
        record_rest, write_pcap_head, write_record, write_record6,
    };
    pub use recording_counts::{LeftOut, Omission};
    pub use recording_reader::{
        DatagramReader, FileOpeningFault, ReadingFault, RecordView, Standing,
    };
}

/// Which flows of UDP datagrams have, and that as text.
pub mod flows {
    pub use recording_counts::{
        CountJson, FlowCount, FlowTable, MOST_STREAMS, Noted, RtpCount, RtpStream, Streams, Times,
        is_rtcp,
    };
}

/// What a receiver's frames lack, as text: runs of missing pgroups, and contested samples.
pub mod report {
    pub use frame_report::{ReportFault, write_report};
}

/// What octets and datagrams come from and go to, and such devices in memory.
pub mod devices {
    pub use st_format::memory::{
        MemoryDatagrams, MemorySink, MemorySource, MemoryTurn, MemoryTurns,
    };
    pub use st_format::{
        ByteSink, ByteSource, DatagramSink, DatagramSource, DeviceFault, MOST_DATAGRAM, SinkFault,
        SourceFault, Turn, read_whole, write_whole,
    };
}

/// The laws of the definitions: what the contracts of the calls say together.
pub mod laws {
    pub use capture_file::laws as files;
    pub use flow::laws as flows;
    pub use frame_report::laws as report;
    pub use packet_plan::laws as send;
    pub use path_merge::{laws as receive, number_laws as numbers};
    pub use pcap_file::laws as recordings;
    pub use picture_forms::laws as forms;
    pub use sdp_format::laws as describe;
    pub use st_format::laws as formats;
}
