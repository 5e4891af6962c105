//! What kind of file is read, and what was read of it between its records.
ghost use Rattle.std.specs.Prelude.{◌≡◌, ◌≤◌, ◌-◌, length, IfErr, IfOk, IfSome};
ghost use Rattle.recording_reader.specs.Files.{CountsReading};
ghost use Rattle.recording_reader.specs.Ways.{FailsNextBy, FindsNext, HasSpace, is_recording_way};
ghost use Rattle.recording_reader.specs.Ways.{left_out_by};

use crate::fault::ReadingFault;
use crate::found::Found;
use crate::reading::read_on;
use crate::record::read_record;
use flow::Flows;
use pcap_file::Layout;
use recording_counts::LeftOut;
use st_format::ByteSource;

/// Where a reader stands in its file.
#[derive(Clone, Copy)]
pub enum Standing {
    /// Between records or at the end, which one isn't known.
    Reads,
    /// At the end, at which it stays.
    Ended,
    /// At this fault, at which it stays.
    Failed(ReadingFault),
}

/// What was read of a recording between its packets.
#[derive(Drop)]
pub struct Track {
    pub(crate) flows: Flows,
    pub(crate) layout: Layout,
    pub(crate) left_out: LeftOut,
}

/// What kind of file is read, and what was read of it between its records.
#[derive(Drop)]
pub enum FileKind {
    Capture,
    Recording(Track),
}

impl FileKind {
    /// Reads on to the next record, and finds it in `buf`, or reads on to the end.
    pub(crate) fn read_next<S: ByteSource>(
        &mut self,
        source: &mut S,
        buf: &mut [u8],
    ) -> Result<Option<Found>, ReadingFault>
        requires { HasSpace self.old (length buf.old) }
        ensures room { length buf.new ≡ length buf.old }
        ensures read { IfOk result (λ r. FindsNext self.old self.new r buf.new
            (S.gave source.old) (S.gave source.new) (S.ended source.new)) }
        ensures fault { IfErr result (λ f. FailsNextBy self.old self.new f
            (S.gave source.old) (S.gave source.new) (S.ended source.new)) }
        ensures counted { CountsReading (S.failures source.old) (S.failures source.new) result }
        ensures names { S.names source.new ≡ S.names source.old }
        ensures forward { IfOk result (λ r. IfSome r (λ f. f.start ≤ f.end)) }
        ensures inside { IfOk result (λ r. IfSome r (λ f. f.end ≤ length buf.new)) }
        ensures few { IfOk result (λ r. IfSome r (λ f. f.end - f.start ≤ 65535)) }
    {
        match self {
            FileKind::Capture => match read_record(source, buf) {
                Ok(found) => Ok(found),
                Err(fault) => Err(ReadingFault::Capture(fault)),
            },
            FileKind::Recording(track) => match read_on(
                source,
                &track.flows,
                &mut track.layout,
                buf,
                &mut track.left_out,
            ) {
                Ok(found) => Ok(found),
                Err(fault) => Err(ReadingFault::Recording(fault)),
            },
        }
    }

    pub(crate) fn is_recording(&self) -> bool
        ensures { result ≡ is_recording_way self.now }
    {
        match self {
            FileKind::Capture => false,
            FileKind::Recording(_) => true,
        }
    }

    pub(crate) fn left_out(&self) -> LeftOut
        ensures { result ≡ left_out_by self.now }
    {
        match self {
            FileKind::Capture => LeftOut::new(),
            FileKind::Recording(track) => track.left_out,
        }
    }
}
