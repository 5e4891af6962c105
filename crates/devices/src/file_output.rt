//! A file that a command writes.
//!
//! What was written takes the name only once all is, by one renaming; so what stood there is lost
//! by no run that fails, and nobody finds a part of a file under the name.
ghost use Rattle.std.specs.Prelude.{◌≡◌, ◌<◌, ◌↔◌, ◌⊎◌, [], None, IsFalse, IsNone, IsSome, IsTrue};
ghost use Rattle.std.specs.Prelude.{OnErr, OnOk};
ghost use Rattle.devices.specs.Passed.{HasNoPart, IsInPlace, IsUnplaced, LeavesNoPart, file_took};
ghost use Rattle.devices.specs.Passed.{writing_failures, written_name};
ghost use Rattle.devices.specs.Written.{IsWithout, IsWrittenOut, draft_took, stream_took, taken_by};
ghost use Rattle.devices.specs.Written.{took_in};
ghost use Rattle.st_format.specs.Device.{Failed};
ghost use Rattle.devices.specs.declared.file_output.Rest.TheVariants.{Goes};
ghost use Rattle.devices.specs.declared.file_sink.Progress.TheVariants.{Front};

use crate::draft::{Draft, Unplaced};
use crate::file_sink::{FileSink, Progress};
use crate::history::History;
use crate::identity::{Identity, identity_of};
use crate::noted::Noted;
use crate::standing::Writing;
use crate::stream::{OUTPUT, Stream};
use st_format::DeviceFault;
use std::io::{self, BufWriter, ErrorKind, Write};
use std::mem;

/// What becomes of a plain file that is not whole.
#[derive(Clone, Copy, PartialEq)]
pub enum Rest {
    /// It stays beside the name, since what it has is sound.
    Stays,
    /// It is removed, since a part of it is of no use.
    Goes,
}

/// A file that a command writes, by its name.
#[derive(Drop)]
pub struct FileOutput<'a> {
    rt: &'a HostRuntime,
    rest: Rest,
    /// What its octets go to: a draft beside the name, or a device or a pipe.
    pub sink: FileSink<'a>,
    /// What took the name, if something did.
    placed: Option<History>,
    /// Whether writing out what was buffered, or taking the name, failed.
    is_cut: bool,
    /// Why, where the system said so.
    fault: Option<io::Error>,
}

/// What became of what was written.
#[derive(Drop)]
struct Settled<'a> {
    progress: Progress<'a>,
    placed: Option<History>,
    /// Why it could not be written out or take the name, if so.
    fault: Option<io::Error>,
}

impl<'a> FileOutput<'a> {
    /// The file of this name, which isn't looked at yet, and what becomes of it where it is not
    /// written whole.
    pub fn new(rt: &'a HostRuntime, name: &'a str, rest: Rest) -> Self
        ensures named { written_name result ≡ name.now }
        ensures unfailed { writing_failures result ≡ 0 }
        ensures fresh { file_took result ≡ [] }
        ensures unplaced { IsUnplaced result }
        ensures rest { result.rest ≡ rest }
    {
        FileOutput {
            rt,
            rest,
            sink: FileSink::new(rt, name),
            placed: None,
            is_cut: false,
            fault: None,
        }
    }

    /// The same, of which a device or a pipe gets each write at once, as what is shown while it
    /// comes.
    pub fn at_once(self) -> Self
        ensures named { written_name result ≡ written_name self.entry }
        ensures failures { writing_failures result ≡ writing_failures self.entry }
        ensures took { file_took result ≡ file_took self.entry }
        ensures unplaced { IsUnplaced self.entry → IsUnplaced result }
        ensures rest { result.rest ≡ self.entry.rest }
    {
        let mut output = self;
        output.sink.hold_nothing();
        output
    }

    /// Which plain file stands there, if one does.
    pub fn identity(&self) -> Option<Identity> {
        match self.sink.name() {
            OUTPUT => identity_of(self.rt, "/dev/stdout"),
            name => identity_of(self.rt, name),
        }
    }

    /// Looks at the place where the file is to stand, of which nothing is changed. One that can't
    /// be written to is a failure.
    pub fn find(&mut self) -> Result<(), DeviceFault>
        ensures took { file_took self.new ≡ file_took self.old }
        ensures unplaced { IsUnplaced self.old → IsUnplaced self.new }
        ensures found { OnOk result (writing_failures self.new
            ≡ writing_failures self.old) }
        ensures counted { OnErr result (Failed (writing_failures self.old)
            (writing_failures self.new)) }
        ensures rest { self.new.rest ≡ self.old.rest }
    {
        self.sink.find()
    }

    /// Ends the writing, and tells whether that went well. Where all was done, what was written
    /// takes the name; else what stood there stands there still, and what was written stays beside
    /// it or is removed.
    pub fn settle(&mut self, is_done: bool) -> bool
        requires { IsUnplaced self.old }
        ensures counted { writing_failures self.new
            ≡ writing_failures self.old }
        ensures took { file_took self.new ≡ file_took self.old }
        ensures placed { IsTrue result → IsTrue is_done → IsInPlace self.new }
        ensures undone { IsFalse is_done → IsUnplaced self.new }
        ensures cut { IsFalse result → IsUnplaced self.new }
        ensures gone { LeavesNoPart self.old → HasNoPart self.new }
        ensures told { IsFalse result → IsTrue self.new.is_cut }
    {
        let progress = mem::replace(&mut self.sink.progress, Progress::Front);
        let settled = self.settled(progress, is_done);
        self.sink.progress = settled.progress;
        self.placed = settled.placed;
        self.is_cut = settled.fault.is_some();
        self.fault = settled.fault;
        !self.is_cut
    }

    /// What becomes of what was written: `is_done` decides of a draft alone.
    fn settled(&self, progress: Progress<'a>, is_done: bool) -> Settled<'a>
        ensures took { took_in result.placed result.progress ≡ taken_by progress.entry }
        ensures whole { IsNone result.fault → IsTrue is_done
            → IsWrittenOut result.placed result.progress }
        ensures undone { IsFalse is_done → IsNone result.placed }
        ensures cut { IsSome result.fault → IsNone result.placed }
        ensures gone { self.now.rest ≡ Goes → IsWithout result.progress }
    {
        match progress {
            Progress::Beside(draft) => {
                if is_done {
                    self.placed(draft)
                } else {
                    self.unplaced(draft, None)
                }
            }
            Progress::Direct(stream) => flushed(stream),
            Progress::Removed(draft) => self.unplaced(draft, Some(removed())),
            Progress::Front => nothing_written(),
        }
    }

    /// What becomes of a file that is to take the name.
    fn placed(&self, draft: Draft<'a, HostRuntime>) -> Settled<'a>
        ensures took { took_in result.placed result.progress ≡ draft_took draft.entry }
        ensures whole { IsNone result.fault → IsWrittenOut result.placed result.progress }
        ensures cut { IsSome result.fault → IsNone result.placed }
        ensures gone { self.now.rest ≡ Goes → IsWithout result.progress }
    {
        match draft.put_in_place() {
            Ok(file) => Settled {
                progress: Progress::Front,
                placed: Some(file),
                fault: None,
            },
            Err(Unplaced { draft, fault }) => self.unplaced(draft, Some(fault)),
        }
    }

    /// What becomes of a file that does not take the name.
    fn unplaced(&self, draft: Draft<'a, HostRuntime>, fault: Option<io::Error>) -> Settled<'a>
        ensures took { taken_by result.progress ≡ draft_took draft.entry }
        ensures unplaced { IsNone result.placed }
        ensures fault { result.fault ≡ fault }
        ensures gone { self.now.rest ≡ Goes → IsWithout result.progress }
    {
        let mut draft = draft;
        let progress = match self.rest {
            Rest::Stays => {
                draft.flush();
                Progress::Beside(draft)
            }
            Rest::Goes => {
                draft.remove();
                Progress::Removed(draft)
            }
        };
        Settled {
            progress,
            placed: None,
            fault,
        }
    }

    /// How the writing went, for what a person is told of it.
    pub fn writing(&self) -> Writing<'_>
        ensures { IsTrue result.has_failed
            ↔ (0 < writing_failures self.now ⊎ IsTrue self.now.is_cut) }
    {
        Writing {
            name: self.sink.name(),
            has_failed: self.sink.has_failed() || self.is_cut,
            fault: self.fault.or(self.sink.fault()),
            left: self.left(),
        }
    }

    /// The name of the file that holds what was written and is not whole, if one does.
    fn left(&self) -> Option<&str> {
        match &self.sink.progress {
            Progress::Beside(draft) => Some(draft.name()),
            _ => None,
        }
    }
}

/// What becomes of a stream: it takes what waits for it.
fn flushed<'a>(stream: BufWriter<Noted<Stream>>) -> Settled<'a>
    ensures took { taken_by result.progress ≡ stream_took stream }
    ensures whole { IsNone result.fault → IsWrittenOut result.placed result.progress }
    ensures unplaced { IsNone result.placed }
    ensures gone { IsWithout result.progress }
{
    let mut stream = stream;
    let fault = stream.flush().err();
    Settled {
        progress: Progress::Direct(stream),
        placed: None,
        fault,
    }
}

/// Where nothing was written no file was made, so there is nothing to place or to remove.
fn nothing_written<'a>() -> Settled<'a>
    ensures { result ≡ record { progress = Front; placed = None; fault = None } }
{
    Settled {
        progress: Progress::Front,
        placed: None,
        fault: None,
    }
}

/// That what was to take the name was removed before.
fn removed() -> io::Error {
    io::Error::from(ErrorKind::NotFound)
}
