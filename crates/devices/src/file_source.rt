//! A file that is read. It tells the octets that it gave, and not those that it will give.
//!
//! It is opened where its first octets are wanted and closed at its end, so that a long list of
//! files has one open at a time, and one that is refused before it is read is not touched.
ghost use Rattle.std.specs.Prelude.{◌≡◌, ◌≤◌, ◌<◌, ◌↔◌, ◌++◌, [], length, take, None, IfOk, OnErr};
ghost use Rattle.devices.specs.Passed.{file_path};

use crate::history::History;
use crate::identity::{Identity, identity_of};
use crate::meter::Meter;
use crate::standing::Reading;
use st_format::{ByteSource, DeviceFault};
use std::fs::{self, File};
use std::io::{self, BufRead, BufReader, Read};

/// How many octets a buffer before a file has.
pub(crate) const BUFFER: usize = 1 << 18;

/// A file that is read, by its name.
#[derive(Drop)]
pub struct FileSource<'a> {
    rt: &'a HostRuntime,
    /// What it is called where its place is told.
    name: &'a str,
    /// The name that it is opened by.
    path: &'a str,
    progress: Progress,
    gave: History,
    failures: u64,
    /// Whether its reading began: the last file that did is the one that a fault is told of.
    is_begun: bool,
    /// How many octets were read, or passed: the place where the reading stands.
    octet: u64,
    /// Whether it begins as what gzip packs.
    is_packed: bool,
    /// Why it failed last.
    fault: Option<io::Error>,
    /// What is told how much was read, and how many octets it was told of: those too that were read
    /// ahead.
    meter: Meter,
    metered: u64,
}

/// Where the reading of a file stands.
#[derive(Drop)]
enum Progress {
    /// The file isn't open yet.
    Front,
    /// It is open, and was not read to its end.
    Within(BufReader<File>),
    /// It was read to its end, and closed.
    Past,
}

impl<'a> FileSource<'a> {
    /// The file of this name, which isn't looked at yet.
    pub fn new(rt: &'a HostRuntime, name: &'a str) -> Self
        ensures named { file_path result ≡ name.now }
        ensures unfailed { ⟦<FileSource<'a> as ByteSource>⟧.failures result ≡ 0 }
        ensures fresh { ⟦<FileSource<'a> as ByteSource>⟧.gave result ≡ [] }
    {
        FileSource {
            rt,
            name,
            path: name,
            progress: Progress::Front,
            gave: History::new(),
            failures: 0,
            is_begun: false,
            octet: 0,
            is_packed: false,
            fault: None,
            meter: Meter::silent(),
            metered: 0,
        }
    }

    /// The file of this name, or standard input where the name is `-`. It isn't looked at yet.
    pub fn given(rt: &'a HostRuntime, name: &'a str) -> Self
        ensures unfailed { ⟦<FileSource<'a> as ByteSource>⟧.failures result ≡ 0 }
        ensures fresh { ⟦<FileSource<'a> as ByteSource>⟧.gave result ≡ [] }
    {
        let mut source = FileSource::new(rt, name);
        if name == "-" {
            source.name = "standard input";
            source.path = "/dev/stdin";
        }
        source
    }

    /// The same, which counts among the files of a meter, and tells it how much is read.
    pub fn metered(self, meter: &Meter) -> Self
        ensures named { file_path result ≡ file_path self.entry }
        ensures failures { ⟦<FileSource<'a> as ByteSource>⟧.failures result
            ≡ ⟦<FileSource<'a> as ByteSource>⟧.failures self.entry }
        ensures gave { ⟦<FileSource<'a> as ByteSource>⟧.gave result
            ≡ ⟦<FileSource<'a> as ByteSource>⟧.gave self.entry }
    {
        meter.expect(self.rt, self.path);
        let mut source = self;
        source.meter = meter.share();
        source
    }

    /// The same file from its front, which isn't looked at yet. Its meter counts it as before.
    pub fn again(self) -> Self
        ensures named { file_path result ≡ file_path self.entry }
        ensures unfailed { ⟦<FileSource<'a> as ByteSource>⟧.failures result ≡ 0 }
        ensures fresh { ⟦<FileSource<'a> as ByteSource>⟧.gave result ≡ [] }
    {
        let mut source = FileSource::new(self.rt, self.path);
        source.name = self.name;
        source.meter = self.meter.share();
        source
    }

    /// Whether it is this plain file, whatever name either has; never where that is none.
    pub fn is(&self, file: Option<Identity>) -> bool {
        file.is_some() && identity_of(self.rt, self.path) == file
    }

    /// Where the reading stands, if it began.
    pub fn begun(&self) -> Option<Reading<'a>> {
        if self.is_begun {
            Some(self.reading())
        } else {
            None
        }
    }

    /// Where the reading stands: its name, how many octets were read, and why it failed last.
    pub fn reading(&self) -> Reading<'a> {
        Reading {
            name: self.name,
            octet: self.octet,
            is_packed: self.is_packed,
            fault: self.fault,
        }
    }

    fn read_file(&mut self, buf: &mut [u8]) -> io::Result<usize>
        ensures room { length buf.new ≡ length buf.old }
        ensures within { IfOk result (λ n. n ≤ length buf.new) }
        ensures failures { self.new.failures ≡ self.old.failures }
        ensures gave { IfOk result
            (λ n. self.new.gave.octets ≡ self.old.gave.octets ++ take n buf.new) }
        ensures ended { IfOk result
            (λ n. 0 < length buf.old → ((self.new.progress ≡ Progress.Past) ↔ (n ≡ 0))) }
        ensures kept { OnErr result (self.new.gave.octets ≡ self.old.gave.octets) }
    {
        self.is_begun = true;
        if let Progress::Front = self.progress {
            let file = fs::open(self.rt, self.path)?;
            let reader = BufReader::with_capacity(self.rt.alloc(), BUFFER, file)?;
            self.progress = Progress::Within(reader);
        }
        let Progress::Within(file) = &mut self.progress else {
            return Ok(0);
        };
        let is_asked = file.buffer().is_empty();
        let n = file.read(buf)?;
        self.gave.note(&buf[..n]);
        self.is_packed = self.is_packed || is_packed(self.octet, &buf[..n]);
        self.octet = self.octet.saturating_add(n as u64);
        if is_asked {
            // (only where the system was asked, which takes longer than to look at a clock)
            let read = self.octet.saturating_add(file.buffer().len() as u64);
            self.meter.count(self.rt, read.saturating_sub(self.metered));
            self.metered = read;
        }
        if n == 0 && !buf.is_empty() {
            self.progress = Progress::Past;
        }
        Ok(n)
    }
}

/// Whether octets that were read at a place are the first ones of what gzip packs (RFC 1952, 2.3).
fn is_packed(octet: u64, octets: &[u8]) -> bool {
    octet == 0 && octets.starts_with(&[0x1f, 0x8b])
}

impl<'a> ByteSource for FileSource<'a> {
    ghost use Rattle.devices.specs.declared.file_source.Progress.TheVariants.{Past};
    ghost use Rattle.devices.specs.Held.{held_in};
    ghost use Rattle.st_format.specs.Device.{BeginsWith};
    ghost use Rattle.std.specs.Io.KnownBytes.{Consumes};
    ghost use Rattle.std.specs.Prelude.{IsFalse, IsTrue, drop};

    ghost to_give = { λ _. None };

    ghost gave = { λ s. s.gave.octets };

    ghost ended = { λ s. s.progress ≡ Past };

    ghost failures = { λ s. s.failures };

    ghost at_hand = { λ s. held_in s.progress };

    /// A file that can't be opened, and a buffer for which there is no memory, are failures too.
    fn read(&mut self, buf: &mut [u8]) -> Result<usize, DeviceFault> {
        match self.read_file(buf) {
            Ok(n) => Ok(n),
            Err(fault) => {
                self.fault = Some(fault);
                self.failures = self.failures.saturating_add(1);
                Err(DeviceFault)
            }
        }
    }

    /// Lends what the buffer before the file holds.
    fn peek(&self) -> &[u8]
        ensures held { result.now ≡ take (length result.now) (held_in self.now.progress) }
        ensures next { BeginsWith None result.now }

        // It lends all of it.
        ensures all { result.now ≡ held_in self.now.progress }
    {
        match &self.progress {
            Progress::Within(file) => file.buffer(),
            _ => &[],
        }
    }

    /// Passes as many as it lends.
    fn pass(&mut self, count: usize) -> bool
        ensures within { IsTrue result → count ≤ length (held_in self.old.progress) }
        ensures given { IsTrue result
            → Consumes None None (take count (held_in self.old.progress)) }
        ensures gave { IsTrue result
            → self.new.gave.octets
            ≡ self.old.gave.octets ++ take count (held_in self.old.progress) }
        ensures ended { IsTrue result
            → ((self.new.progress ≡ Past) ↔ ((count ≡ 0) × (self.old.progress ≡ Past))) }
        ensures none { IsFalse result → self.new.gave.octets ≡ self.old.gave.octets }
        ensures still { IsFalse result
            → ((self.new.progress ≡ Past) ↔ (self.old.progress ≡ Past)) }
        ensures failures { self.new.failures ≡ self.old.failures }

        // It passes all that it lends, and holds the others still.
        ensures when { IsTrue result ↔ (count ≤ length (held_in self.old.progress)) }
        ensures rest { IsTrue result
            → held_in self.new.progress ≡ drop count (held_in self.old.progress) }
    {
        let Progress::Within(file) = &mut self.progress else {
            return count == 0;
        };
        if count > file.buffer().len() {
            return false;
        }
        self.gave.note(&file.buffer()[..count]);
        file.consume(count);
        self.octet = self.octet.saturating_add(count as u64);
        true
    }
}
