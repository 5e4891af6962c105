//! A file that is written. It tells the octets that it took, and not what the file holds.
//!
//! A plain file is made where its first octets come, beside the name that it is to have. A device
//! or a pipe takes the octets as they come.
ghost use Rattle.std.specs.Prelude.{◌≡◌, ◌≤◌, ◌+◌, ◌-◌, ◌^◌, ◌<◌, ◌↔◌, ◌++◌, [], length, min, take};
ghost use Rattle.std.specs.Prelude.{None, IfOk, OnErr, OnOk, true};
ghost use Rattle.devices.specs.Written.{taken_by};
ghost use Rattle.st_format.specs.Device.{Failed};

use crate::draft::Draft;
use crate::file_source::BUFFER;
use crate::noted::Noted;
use crate::place::{Place, find_place};
use crate::stream::Stream;
use st_format::{ByteSink, DeviceFault};
use std::alloc::Global;
use std::io::{self, BufWriter, Write};

/// A file that is written, by its name.
#[derive(Drop)]
pub struct FileSink<'a> {
    rt: &'a HostRuntime,
    name: &'a str,
    /// What stands there, once that is looked at.
    place: Option<Place<Global>>,
    pub(crate) progress: Progress<'a>,
    /// How many octets wait until they go on together, where they go to a device or a pipe.
    buffer: usize,
    failures: u64,
    /// Why it failed last, where the system said so.
    fault: Option<io::Error>,
}

/// How far a file is written.
#[derive(Drop)]
pub(crate) enum Progress<'a> {
    /// Nothing is written, so there is no file yet.
    Front,
    /// What was written went to what has the name.
    Direct(BufWriter<Noted<Stream>>),
    /// What was written stands beside the name.
    Beside(Draft<'a, HostRuntime>),
    /// What was written is gone, as it was not whole; what it took is still told.
    Removed(Draft<'a, HostRuntime>),
}

impl<'a> FileSink<'a> {
    /// The file of this name, which isn't looked at yet.
    pub(crate) fn new(rt: &'a HostRuntime, name: &'a str) -> Self
        ensures named { result.name.now ≡ name.now }
        ensures unfailed { ⟦<FileSink<'a> as ByteSink>⟧.failures result ≡ 0 }
        ensures fresh { ⟦<FileSink<'a> as ByteSink>⟧.took result ≡ [] }
    {
        FileSink {
            rt,
            name,
            place: None,
            progress: Progress::Front,
            buffer: BUFFER,
            failures: 0,
            fault: None,
        }
    }

    /// From its first octet on each write goes to a device or a pipe at once.
    pub(crate) fn hold_nothing(&mut self)
        ensures named { self.new.name.now ≡ self.old.name.now }
        ensures failures { ⟦<FileSink<'a> as ByteSink>⟧.failures self.new
            ≡ ⟦<FileSink<'a> as ByteSink>⟧.failures self.old }
        ensures progress { self.new.progress ≡ self.old.progress }
    {
        self.buffer = 0;
    }

    /// Looks at the place where the file is to stand, of which nothing is changed. One that can't
    /// be written to is a failure.
    pub(crate) fn find(&mut self) -> Result<(), DeviceFault>
        ensures took { ⟦<FileSink<'a> as ByteSink>⟧.took self.new
            ≡ ⟦<FileSink<'a> as ByteSink>⟧.took self.old }
        ensures found { OnOk result (⟦<FileSink<'a> as ByteSink>⟧.failures self.new
            ≡ ⟦<FileSink<'a> as ByteSink>⟧.failures self.old) }
        ensures counted { OnErr result (Failed (⟦<FileSink<'a> as ByteSink>⟧.failures self.old)
            (⟦<FileSink<'a> as ByteSink>⟧.failures self.new)) }
    {
        match find_place(self.rt, self.name) {
            Ok(place) => {
                self.place = Some(place);
                Ok(())
            }
            Err(fault) => Err(self.fail(Some(fault))),
        }
    }

    /// Writes octets, at the first of them to a file that is made for them.
    fn write_file(&mut self, octets: &[u8]) -> io::Result<usize>
        ensures within { IfOk result (λ n. n ≤ length octets.now) }
        ensures failures { self.new.failures ≡ self.old.failures }
        ensures took { IfOk result
            (λ n. taken_by self.new.progress ≡ taken_by self.old.progress ++ take n octets.now) }
        ensures kept { OnErr result
            (taken_by self.new.progress ≡ taken_by self.old.progress) }
    {
        self.begin()?;
        match &mut self.progress {
            Progress::Direct(stream) => stream.write(octets),
            Progress::Beside(draft) => draft.write(octets),
            _ => Ok(0),
        }
    }

    /// Makes the file, where nothing is written yet.
    fn begin(&mut self) -> io::Result<()>
        ensures failures { self.new.failures ≡ self.old.failures }
        ensures took { taken_by self.new.progress ≡ taken_by self.old.progress }
    {
        if let Progress::Front = &self.progress {
            let place = match self.place.take() {
                Some(place) => place,
                None => find_place(self.rt, self.name)?,
            };
            self.progress = self.begun(place)?;
        }
        Ok(())
    }

    /// What is to be written, at a place that is found: its buffer is made here, and not before.
    fn begun(&self, place: Place<Global>) -> io::Result<Progress<'a>>
        ensures { IfOk result (λ p. taken_by p ≡ []) }
    {
        match place {
            Place::Plain { target, replaced } => {
                Ok(Progress::Beside(Draft::begin(self.rt, target, replaced)?))
            }
            Place::Direct => {
                let stream = Noted::new(Stream::open(self.rt, self.name)?);
                let writer = BufWriter::with_capacity(self.rt.alloc(), self.buffer, stream)?;
                Ok(Progress::Direct(writer))
            }
        }
    }

    /// Why it failed last, where it did and the system said so.
    pub(crate) fn fault(&self) -> Option<io::Error> {
        self.fault
    }

    /// Whether a call failed, which no later one mends.
    pub(crate) fn has_failed(&self) -> bool
        ensures { result ≡ true ↔ 0 < self.now.failures }
    {
        self.failures > 0
    }

    /// The name that it was given, links in it not followed.
    pub(crate) fn name(&self) -> &'a str {
        self.name
    }

    /// Counts a failure, and keeps why it came, so that want of memory for the buffer is told as
    /// that.
    fn fail(&mut self, fault: Option<io::Error>) -> DeviceFault
        ensures failures { self.new.failures ≡ min (self.old.failures + 1) (2 ^ 64 - 1) }
        ensures progress { self.new.progress ≡ self.old.progress }
    {
        self.fault = fault;
        self.failures = self.failures.saturating_add(1);
        DeviceFault
    }
}

impl<'a> ByteSink for FileSink<'a> {
    ghost held = { λ _. None };

    ghost took = { λ s. taken_by s.progress };

    ghost failures = { λ s. s.failures };

    /// A write of no octets of some is a failure, and so are a file that can't be made and a buffer
    /// for which there is no memory.
    fn write(&mut self, octets: &[u8]) -> Result<usize, DeviceFault> {
        match self.write_file(octets) {
            Ok(n) if n > 0 || octets.is_empty() => Ok(n),
            outcome => Err(self.fail(outcome.err())),
        }
    }
}
