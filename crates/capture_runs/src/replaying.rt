//! Reading a file twice, also where the system gives its octets only once.
ghost use Rattle.std.specs.Prelude.{◌≡◌, ◌≤◌, ◌<◌, ◌++◌, ◌↔◌, [], None, IfOk, IfErr, OnErr, drop};
ghost use Rattle.std.specs.Prelude.{length, min, take};
ghost use Rattle.capture_runs.specs.Replayed.{replayed_gave};
ghost use Rattle.devices.specs.Passed.{file_gave};
ghost use Rattle.run_outcome.specs.Fault.{IfRefused};

use crate::replayed::{Keeping, Replayed};
use devices::{FileSource, Meter, Reading};
use run_outcome::Fault;
use st_format::{ByteSource, DeviceFault};
use std::fs;

impl<'a> Replayed<'a> {
    /// The file of this name, or standard input where that is `-`, of which nothing is remembered.
    /// It isn't read yet. A meter is told how much is.
    pub fn once(rt: &'a HostRuntime, name: &'a str, meter: &Meter) -> Self
        ensures { replayed_gave result ≡ [] }
    {
        let file = FileSource::given(rt, name).metered(meter);
        Replayed::over(rt, name, file, Keeping::No)
    }

    /// The file of this name, whatever that is, likewise, without a meter.
    pub fn named(rt: &'a HostRuntime, name: &'a str) -> Self
        ensures { replayed_gave result ≡ [] }
    {
        Replayed::over(rt, name, FileSource::new(rt, name), Keeping::No)
    }

    /// The same as [`Replayed::once`] to be read twice: what is read of it is remembered, unless it
    /// is a plain file, which can be opened again.
    pub fn first(rt: &'a HostRuntime, name: &'a str, meter: &Meter) -> Self
        ensures { replayed_gave result ≡ [] }
    {
        let keeping = if is_plain(rt, name) {
            Keeping::No
        } else {
            Keeping::Yes
        };
        let file = FileSource::given(rt, name).metered(meter);
        Replayed::over(rt, name, file, keeping)
    }

    /// A file that gave nothing yet.
    fn over(rt: &'a HostRuntime, name: &'a str, file: FileSource<'a>, keeping: Keeping) -> Self
        requires { file_gave file ≡ [] }
        ensures { replayed_gave result ≡ [] }
    {
        Replayed {
            rt,
            name,
            file,
            memory: Vec::new(rt.alloc()),
            at: 0,
            keeping,
            is_begun: false,
            is_ended: false,
        }
    }

    /// The same from its front. Where memory was wanted for what it gave, that is the fault.
    pub fn again(self) -> Result<Self, Fault>
        ensures fresh { IfOk result (λ r. replayed_gave r ≡ []) }
        ensures unrefused { IfErr result (λ f. IfRefused f ⊥) }
    {
        match self.keeping {
            Keeping::No => Ok(self.reopened()),
            Keeping::Yes => Ok(self.rewound()),
            Keeping::Lost => Err(Fault::Memory),
        }
    }

    /// The file opened anew, of which nothing is remembered.
    fn reopened(self) -> Self
        ensures { replayed_gave result ≡ [] }
    {
        Replayed::over(self.rt, self.name, self.file.again(), Keeping::No)
    }

    /// What is remembered, from its front, and then what the file gives.
    fn rewound(self) -> Self
        requires { self.keeping ≡ Keeping.Yes }
        ensures { replayed_gave result ≡ [] }
    {
        Replayed {
            rt: self.rt,
            name: self.name,
            file: self.file,
            memory: self.memory,
            at: 0,
            keeping: Keeping::No,
            is_begun: false,
            is_ended: false,
        }
    }

    /// Where the reading stands, if it began.
    pub fn begun(&self) -> Option<Reading<'a>> {
        if self.is_begun {
            Some(self.reading())
        } else {
            None
        }
    }

    /// Where the reading stands: before what is left of what is remembered.
    pub fn reading(&self) -> Reading<'a> {
        let reading = self.file.reading();
        let left = self.memory.len().saturating_sub(self.at);
        Reading {
            octet: reading.octet.saturating_sub(left as u64),
            ..reading
        }
    }
}

/// Where the reading of the last of some files stands that was begun.
pub fn last_begun<'a>(files: &[Replayed<'a>]) -> Option<Reading<'a>> {
    let mut last = None;
    for file in files {
        last = file.begun().or(last);
    }
    last
}

/// Whether a name is that of a plain file, which gives the same octets where it is opened again. A
/// pipe, a device or a terminal isn't.
fn is_plain(rt: &HostRuntime, name: &str) -> bool {
    let path = if name == "-" { "/dev/stdin" } else { name };
    match fs::metadata(rt, path) {
        Ok(found) => found.is_file(),
        Err(_) => false,
    }
}

/// Puts as many octets as there are and as there is room for at the front of `buf`, and answers how
/// many.
fn pour(octets: &[u8], buf: &mut [u8]) -> usize
    ensures count { result ≡ min (length octets.now) (length buf.old) }
    ensures room { length buf.new ≡ length buf.old }
    ensures poured { take result buf.new ≡ take result octets.now }
{
    let n = octets.len().min(buf.len());
    buf[..n].copy_from_slice(&octets[..n]);
    n
}

impl<'a> ByteSource for Replayed<'a> {
    ghost use Rattle.capture_runs.specs.Replayed.{replayed_gave};
    ghost use Rattle.devices.specs.Passed.{file_failures};
    ghost use Rattle.std.specs.Prelude.{true};

    ghost to_give = { λ _. None };

    ghost gave = { λ r. replayed_gave r };

    ghost ended = { λ r. r.is_ended ≡ true };

    ghost failures = { λ r. file_failures r.file };

    /// Gives what is left of what is remembered, or else what the file gives.
    fn read(&mut self, buf: &mut [u8]) -> Result<usize, DeviceFault> {
        self.is_begun = true;
        self.is_ended = false;
        if self.at < self.memory.len() {
            let n = pour(&self.memory[self.at..], buf);
            self.at += n;
            return Ok(n);
        }
        let n = self.file.read(buf)?;
        self.is_ended = n == 0 && !buf.is_empty();
        if let Keeping::Yes = self.keeping {
            match self.memory.extend_from_slice(&buf[..n]) {
                Ok(()) => self.at = self.memory.len(),
                Err(_) => self.keeping = Keeping::Lost,
            }
        }
        Ok(n)
    }
}
