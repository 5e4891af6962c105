//! What `receive`, `inspect` and `follow` read: the SDP, where one is named, and captures and
//! recordings.
ghost use Rattle.std.specs.Prelude.{◌≡◌, [], IfErr, IfOk, IsFalse, None, OnOk, Some};
ghost use Rattle.std.specs.Prelude.{length};
ghost use Rattle.std.specs.Option.{option_copied};
ghost use Rattle.capture_runs.specs.Opened.{AreUnread, said_text};
ghost use Rattle.capture_runs.specs.Refused.{HasSdpText, IsFlowRefusal, IsReceiveStartRefusal};
ghost use Rattle.capture_runs.specs.Refused.{IsTooLongSdp};
ghost use Rattle.capture_runs.specs.Replayed.{replayed_ended, replayed_gave};
ghost use Rattle.capture_runs.specs.Window.{IsFoundWindow, IsLookedRefusal, IsSought};
ghost use Rattle.devices.specs.Passed.{IsUnplaced, LeavesNoPart, file_took};
ghost use Rattle.recording_engines.specs.Ways.{AreWaysBy};
ghost use Rattle.run_outcome.specs.Refusing.{OfRefusal};
ghost use Rattle.run_outcome.specs.Text.{GivesText};

use crate::looking::{files_of, fresh_files};
use crate::replayed::Replayed;
use crate::replaying::last_begun;
use crate::window::{Found, find_in, read_words};
use capture_engines::{Seen, Wanted};
use command_end::find_output;
use devices::{FileOutput, FileSource, Identity, Meter, Reading};
use flow::Flows;
use recording_engines::{FlowWords, ways_each};
use run_outcome::{Fault, MOST_TEXT, Refusal, Writer, read_text};
use window_finding::Sought;

/// What `receive` reads, or `inspect` of a stream.
#[derive(Drop)]
pub struct Files<'a> {
    /// The SDP's file, where one is named.
    pub sdp: Option<Replayed<'a>>,
    /// Its text, where that was read.
    pub said: Option<Vec<u8>>,
    /// What was read of the captures and recordings, where the first timestamps were looked for in
    /// them and could not be found.
    pub looked: Vec<Replayed<'a>>,
    /// The window of the first timestamps, where these are asked for.
    pub found: Option<Found<'a>>,
    /// The captures and recordings, in the order in which they are named.
    pub recordings: Vec<Replayed<'a>>,
    /// The flows by which each is taken that is a recording, or the refusal that comes where it is.
    pub ways: Vec<Result<Flows, Refusal>>,
    /// What was seen of each that was taken. It is for a person.
    pub seen: Vec<Seen>,
    /// What is told how much of them is read. It is for a person.
    pub meter: Meter,
}

/// What the words of `receive` ask for, and the names of the files that it reads.
#[derive(Clone, Copy)]
pub struct Asked<'a> {
    pub wanted: Wanted<'a>,
    /// The flows of recordings of other tools.
    pub flows: FlowWords<'a>,
    /// The SDP's file, where one is named.
    pub sdp: Option<&'a str>,
    /// The names of the captures' and recordings' files, in the order in which they are read.
    pub recordings: &'a [&'a str],
}

impl<'a> Files<'a> {
    /// Where nothing is read yet.
    pub fn new(rt: &HostRuntime, meter: &Meter) -> Files<'a>
        ensures unread { AreUnread result }
        ensures unsaid { result.sdp ≡ None }
        ensures none { result.found ≡ None }
    {
        Files {
            sdp: None,
            said: None,
            looked: Vec::new(rt.alloc()),
            found: None,
            recordings: Vec::new(rt.alloc()),
            ways: Vec::new(rt.alloc()),
            seen: Vec::new(rt.alloc()),
            meter: meter.share(),
        }
    }

    /// Looks at the words, and at the place of the receiver's file, reads the SDP where one is
    /// named, and finds by which flows each file is taken that is a recording. No such file is
    /// looked at yet, but where the first timestamps are asked for: these are then found.
    pub(crate) fn open(
        &mut self,
        rt: &'a HostRuntime,
        asked: Asked<'a>,
        state: &mut FileOutput<'_>,
        is_input: bool,
    ) -> Result<(), Fault>
        requires unread { AreUnread self.old }
        requires unsaid { self.old.sdp ≡ None }
        requires none { self.old.found ≡ None }
        ensures unread { AreUnread self.new }
        ensures found { OnOk result (IsFoundWindow asked.entry.wanted.window.now
            asked.entry.wanted.ssrc.now (said_text self.new.said) self.new.ways.items
            self.new.found) }
        ensures ways { OnOk result (AreWaysBy (option_copied asked.entry.flows.a)
            (option_copied asked.entry.flows.b) (said_text self.new.said)
            (length asked.entry.recordings.now) self.new.ways.items) }
        ensures took { file_took state.new ≡ file_took state.old }
        ensures unplaced { IsUnplaced state.old → IsUnplaced state.new }
        ensures rest { LeavesNoPart state.old → LeavesNoPart state.new }
        ensures apart { OnOk result (IsFalse is_input) }
        ensures refusal { IfErr result (λ f. OfRefusal f (IsReceiveStartRefusal
            asked.entry.wanted.window.now asked.entry.wanted.ssrc.now is_input
            (option_copied asked.entry.flows.a) (option_copied asked.entry.flows.b)
            self.new)) }
    {
        let sought = read_words(rt, asked.wanted)?;
        find_output(state, is_input, Writer::Receive)?;
        self.read_sdp(rt, asked.sdp)?;
        self.find_ways(rt, asked.flows, asked.recordings.len())?;
        match sought {
            None => self.open_recordings(rt, asked.recordings),
            Some(sought) => self.open_found(rt, asked, sought),
        }
    }

    /// Reads the SDP's file, where one is named. It is `ReceiveSdp` where that gives more than a text
    /// may have; and a fault where its device fails, or memory is wanted.
    pub fn read_sdp(&mut self, rt: &'a HostRuntime, name: Option<&'a str>) -> Result<(), Fault>
        requires { AreUnread self.old }
        ensures unread { AreUnread self.new }
        ensures found { self.new.found ≡ self.old.found }
        ensures read { OnOk result (self.old.sdp ≡ None
            → HasSdpText self.new.sdp (said_text self.new.said)) }
        ensures refusal { IfErr result (λ f. OfRefusal f (IsTooLongSdp self.new.sdp)) }
    {
        let Some(name) = name else {
            return Ok(());
        };
        let mut file = Replayed::named(rt, name);
        match read_said(rt, &mut file) {
            Ok(said) => {
                self.sdp = Some(file);
                self.said = Some(said);
                Ok(())
            }
            Err(fault) => {
                self.sdp = Some(file);
                self.said = None;
                Err(fault)
            }
        }
    }

    /// Finds the flows by which each of so many files is taken that is a recording, by the words or
    /// else by the SDP.
    pub fn find_ways(
        &mut self,
        rt: &HostRuntime,
        flows: FlowWords<'_>,
        count: usize,
    ) -> Result<(), Fault>
        requires { AreUnread self.old }
        ensures unread { AreUnread self.new }
        ensures ways { OnOk result (AreWaysBy (option_copied flows.entry.a)
            (option_copied flows.entry.b) (said_text self.new.said) count self.new.ways.items) }
        ensures sdp { self.new.sdp ≡ self.old.sdp }
        ensures said { self.new.said ≡ self.old.said }
        ensures found { self.new.found ≡ self.old.found }
        ensures refusal { IfErr result (λ f. OfRefusal f (IsFlowRefusal
            (option_copied flows.entry.a) (option_copied flows.entry.b))) }
    {
        self.ways = ways_each(rt.alloc(), flows, text_of(&self.said), count)?;
        self.seen = vec![in rt.alloc(); Seen::new(); count]?;
        Ok(())
    }

    /// The files of captures and recordings, none of which is looked at yet.
    fn open_recordings(&mut self, rt: &'a HostRuntime, names: &[&'a str]) -> Result<(), Fault>
        requires { AreUnread self.old }
        ensures unread { AreUnread self.new }
        ensures said { self.new.said ≡ self.old.said }
        ensures ways { self.new.ways ≡ self.old.ways }
        ensures found { self.new.found ≡ self.old.found }
        ensures unrefused { IfErr result (λ f. OfRefusal f (λ _. ⊥)) }
    {
        self.recordings = files_of(rt, names, false, &self.meter)?;
        Ok(())
    }

    /// Finds the first timestamps in the files of captures and recordings, which are then to be
    /// read again.
    fn open_found(
        &mut self,
        rt: &'a HostRuntime,
        asked: Asked<'a>,
        sought: Sought,
    ) -> Result<(), Fault>
        requires unread { AreUnread self.old }
        requires asked { IsSought asked.wanted.window.now asked.wanted.ssrc.now (Some sought) }
        ensures unread { AreUnread self.new }
        ensures sdp { self.new.sdp ≡ self.old.sdp }
        ensures said { self.new.said ≡ self.old.said }
        ensures ways { self.new.ways ≡ self.old.ways }
        ensures found { OnOk result (IsFoundWindow asked.entry.wanted.window.now
            asked.entry.wanted.ssrc.now (said_text self.new.said) self.new.ways.items
            self.new.found) }
        ensures refusal { IfErr result (λ f. OfRefusal f (IsLookedRefusal
            asked.entry.wanted.window.now asked.entry.wanted.ssrc.now (said_text self.new.said)
            self.new.ways.items self.new.looked.items)) }
    {
        self.meter.expect_again();
        let mut looked = files_of(rt, asked.recordings, true, &self.meter)?;
        match find_in(
            rt,
            asked.wanted,
            sought,
            text_of(&self.said),
            &mut looked,
            self.ways.as_slice(),
        ) {
            Ok(found) => {
                self.meter.begin_again();
                self.recordings = fresh_files(rt, looked)?;
                self.found = Some(found);
                Ok(())
            }
            Err(fault) => {
                self.looked = looked;
                Err(fault)
            }
        }
    }

    pub(crate) fn said(&self) -> Option<&[u8]> {
        text_of(&self.said)
    }

    /// Where the reading of the SDP stands, where one is named.
    pub fn sdp_reading(&self) -> Option<Reading<'a>> {
        match &self.sdp {
            Some(file) => Some(file.reading()),
            None => None,
        }
    }

    /// What was seen of the packets of the recordings among the files. It is for a person.
    pub fn seen(&self) -> Seen {
        let mut all = Seen::new();
        for seen in &self.seen {
            all.add(seen);
        }
        all
    }

    /// Where the reading of the last file stands that was begun.
    pub fn last_read(&self) -> Option<Reading<'a>> {
        last_begun(&self.recordings).or(last_begun(&self.looked))
    }
}

/// Whether one of the files that are to be read is this one.
pub(crate) fn is_asked(rt: &HostRuntime, asked: Asked<'_>, file: Option<Identity>) -> bool {
    is_read(rt, asked.sdp, asked.recordings, file)
}

/// Whether the SDP's file or one of the recordings of these names is this one.
pub fn is_read(
    rt: &HostRuntime,
    sdp: Option<&str>,
    recordings: &[&str],
    file: Option<Identity>,
) -> bool {
    let is_sdp = match sdp {
        Some(name) => FileSource::new(rt, name).is(file),
        None => false,
    };
    is_sdp || is_recording(rt, recordings, file)
}

/// Whether one of the files of these names is this one.
fn is_recording(rt: &HostRuntime, names: &[&str], file: Option<Identity>) -> bool {
    for name in names {
        if FileSource::given(rt, name).is(file) {
            return true;
        }
    }
    false
}

fn read_said(rt: &HostRuntime, file: &mut Replayed<'_>) -> Result<Vec<u8>, Fault>
    requires { replayed_gave file.old ≡ [] }
    ensures said { IfOk result (λ said. GivesText 16777216 [] (replayed_gave file.new)
        (replayed_ended file.new) said.items) }
    ensures refusal { IfErr result (λ f. OfRefusal f (IsTooLongSdp (Some file.new))) }
{
    match read_text(rt.alloc(), file, MOST_TEXT)? {
        Some(said) => Ok(said),
        None => Err(Fault::Refused(Refusal::ReceiveSdp)),
    }
}

/// The octets of a text, where there is one.
pub fn text_of(said: &Option<Vec<u8>>) -> Option<&[u8]>
    ensures { option_copied result ≡ said_text said.now }
{
    match said {
        Some(text) => Some(text.as_slice()),
        None => None,
    }
}
