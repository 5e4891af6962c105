//! A directory that files are written into, one after the other, each under a name of its own.
//!
//! What was written of a file takes its name only once all is, by one renaming.
ghost use Rattle.std.specs.Prelude.{◌≡◌, ◌≤◌, ◌+◌, ◌-◌, ◌^◌, ◌<◌, ◌↔◌, ◌++◌, ◌∷◌, [], IsTrue};
ghost use Rattle.std.specs.Prelude.{IfOk, None, OnErr, OnOk, length, min, take};
ghost use Rattle.devices.specs.Filed.{directory_failures, filed_files, next_failures, next_took};
ghost use Rattle.devices.specs.Written.{draft_took};
ghost use Rattle.st_format.specs.Device.{Failed};

use crate::draft::{Draft, try_beside};
use crate::filed::Filed;
use crate::history::History;
use crate::place::{Place, find_place};
use crate::standing::Writing;
use st_format::{ByteSink, DeviceFault};
use std::io::{self, ErrorKind};
use std::path::PathBuf;

/// A directory that files are written into, by its name.
#[derive(Drop)]
pub struct DirectoryOutput<'a> {
    rt: &'a HostRuntime,
    name: &'a str,
    /// The file that is written next, beside the name that it is to take.
    pub file: NextFile<'a>,
    /// Those that have their names, which only proofs read: they take no memory.
    pub filed: Vec<Filed>,
}

/// A file that is written beside the name that it is to take, once it is begun.
#[derive(Drop)]
pub struct NextFile<'a> {
    draft: Option<Draft<'a, HostRuntime>>,
    failures: u64,
    /// Why it failed last, where the system said so.
    fault: Option<io::Error>,
}

impl<'a> DirectoryOutput<'a> {
    /// The directory of this name, which isn't looked at yet.
    pub fn new(rt: &'a HostRuntime, name: &'a str) -> Self
        ensures unfailed { directory_failures result ≡ 0 }
        ensures fresh { filed_files result ≡ [] }
    {
        DirectoryOutput {
            rt,
            name,
            file: NextFile {
                draft: None,
                failures: 0,
                fault: None,
            },
            filed: Vec::new(rt.alloc()),
        }
    }

    /// Looks at the directory, in which nothing is changed. One that isn't there, or in which no
    /// file can be made, is a failure.
    pub fn find(&mut self) -> Result<(), DeviceFault>
        ensures filed { self.new.filed ≡ self.old.filed }
        ensures found { OnOk result (directory_failures self.new ≡ directory_failures self.old) }
        ensures counted { OnErr result (Failed (directory_failures self.old)
            (directory_failures self.new)) }
    {
        match self.look() {
            Ok(()) => Ok(()),
            Err(fault) => Err(self.file.fail(Some(fault))),
        }
    }

    /// Tells whether files can be made in the directory.
    fn look(&self) -> io::Result<()> {
        let target = self.path_of("0")?;
        try_beside(self.rt, target.as_path())
    }

    /// Begins the file of this name. What was written of one before that did not take its name is
    /// removed.
    pub fn begin(&mut self, name: &str) -> Result<(), DeviceFault>
        ensures begun { OnOk result (next_took self.new.file ≡ []) }
        ensures filed { self.new.filed ≡ self.old.filed }
        ensures unfailed { OnOk result
            (directory_failures self.new ≡ directory_failures self.old) }
        ensures counted { OnErr result (Failed (directory_failures self.old)
            (directory_failures self.new)) }
    {
        self.file.leave();
        match self.begun(name) {
            Ok(draft) => {
                self.file.draft = Some(draft);
                Ok(())
            }
            Err(fault) => Err(self.file.fail(Some(fault))),
        }
    }

    /// Gives the file that was begun its name, which is this.
    pub fn end(&mut self, name: &str) -> Result<(), DeviceFault>
        ensures filed { OnOk result (filed_files self.new
            ≡ filed_files self.old ++ (name.now, next_took self.old.file) ∷ []) }
        ensures kept { OnErr result (filed_files self.new ≡ filed_files self.old) }
        ensures unfailed { OnOk result
            (directory_failures self.new ≡ directory_failures self.old) }
        ensures counted { OnErr result (Failed (directory_failures self.old)
            (directory_failures self.new)) }
    {
        match self.file.place() {
            Ok(took) => self.note(name, took),
            Err(fault) => Err(fault),
        }
    }

    /// Notes a file that has this name. It takes no memory, so that this is wanted can't be.
    fn note(&mut self, name: &str, took: History) -> Result<(), DeviceFault>
        ensures filed { OnOk result (filed_files self.new
            ≡ filed_files self.old ++ (name.now, took.octets) ∷ []) }
        ensures kept { OnErr result (filed_files self.new ≡ filed_files self.old) }
        ensures unfailed { OnOk result
            (directory_failures self.new ≡ directory_failures self.old) }
        ensures counted { OnErr result (Failed (directory_failures self.old)
            (directory_failures self.new)) }
    {
        match self.filed.push(Filed::new(name, took)) {
            Ok(()) => Ok(()),
            Err(_) => Err(
                self.file
                    .fail(Some(io::Error::from(ErrorKind::OutOfMemory))),
            ),
        }
    }

    /// How the writing went, for what a person is told of it.
    pub fn writing(&self) -> Writing<'a>
        ensures { IsTrue result.has_failed ↔ (0 < directory_failures self.now) }
    {
        Writing {
            name: self.name,
            has_failed: self.file.failures > 0,
            fault: self.file.fault,
            left: None,
        }
    }

    /// The file of this name, in place of one that stands there, with nothing in it yet.
    fn begun(&self, name: &str) -> io::Result<Draft<'a, HostRuntime>>
        ensures { IfOk result (λ d. draft_took d ≡ []) }
    {
        let path = self.path_of(name)?;
        match find_place(self.rt, path.as_str())? {
            Place::Plain { target, replaced } => Draft::begin(self.rt, target, replaced),
            Place::Direct => Err(io::Error::from(ErrorKind::AlreadyExists)),
        }
    }

    /// The path of a file of this name in the directory.
    fn path_of(&self, name: &str) -> io::Result<PathBuf> {
        let mut path = PathBuf::from_str(self.rt.alloc(), self.name)?;
        path.push(name)?;
        Ok(path)
    }
}

impl NextFile<'_> {
    /// Gives it its name, and answers what it took; or removes what was written.
    fn place(&mut self) -> Result<History, DeviceFault>
        ensures took { IfOk result (λ h. h.octets ≡ next_took self.old) }
        ensures unfailed { OnOk result (next_failures self.new ≡ next_failures self.old) }
        ensures counted { OnErr result (Failed (next_failures self.old)
            (next_failures self.new)) }
    {
        let Some(draft) = self.draft.take() else {
            return Err(self.fail(None));
        };
        match draft.put_in_place() {
            Ok(took) => Ok(took),
            Err(unplaced) => {
                unplaced.draft.remove();
                Err(self.fail(Some(unplaced.fault)))
            }
        }
    }

    /// Removes what was written of it.
    fn leave(&mut self)
        ensures failures { self.new.failures ≡ self.old.failures }
    {
        if let Some(draft) = self.draft.take() {
            draft.remove();
        }
    }

    /// Writes octets to it, where it is begun.
    fn write_draft(&mut self, octets: &[u8]) -> io::Result<usize>
        ensures within { IfOk result (λ n. n ≤ length octets.now) }
        ensures failures { self.new.failures ≡ self.old.failures }
        ensures took { IfOk result
            (λ n. next_took self.new ≡ next_took self.old ++ take n octets.now) }
        ensures kept { OnErr result (next_took self.new ≡ next_took self.old) }
    {
        match &mut self.draft {
            Some(draft) => draft.write(octets),
            None => Err(io::Error::from(ErrorKind::NotFound)),
        }
    }

    /// Counts a failure, and keeps why it came.
    fn fail(&mut self, fault: Option<io::Error>) -> DeviceFault
        ensures failures { self.new.failures ≡ min (self.old.failures + 1) (2 ^ 64 - 1) }
        ensures draft { self.new.draft ≡ self.old.draft }
    {
        self.fault = fault;
        self.failures = self.failures.saturating_add(1);
        DeviceFault
    }
}

impl ByteSink for NextFile<'_> {
    ghost held = { λ _. None };

    ghost took = { λ f. next_took f };

    ghost failures = { λ f. next_failures f };

    /// A write of no octets of some is a failure, and so is one to a file that isn't begun.
    fn write(&mut self, octets: &[u8]) -> Result<usize, DeviceFault> {
        match self.write_draft(octets) {
            Ok(n) if n > 0 || octets.is_empty() => Ok(n),
            outcome => Err(self.fail(outcome.err())),
        }
    }
}
