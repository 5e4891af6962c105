//! A file that is written beside the name that it is to take.
//!
//! What stands under that name stays as it is, octet for octet, until all is written and the device
//! has said so; then the draft takes the name by one renaming.
ghost use Rattle.std.specs.Prelude.{◌≡◌, ◌≤◌, ◌++◌, [], IfErr, IfOk, OnErr, OnOk, length, take};
ghost use Rattle.std.specs.Io.Buffered.{writer_buffer};
ghost use Rattle.devices.specs.Written.{draft_took};

use crate::file_source::BUFFER;
use crate::history::History;
use crate::noted::Noted;
use std::fs::{self, Files, Metadata, OpenFile, OpenOptions};
use std::io::{self, BufWriter, ErrorKind, Write};
use std::os::unix;
use std::os::unix::fs::MetadataExt;
use std::path::{Path, PathBuf};

/// How many names are tried for a draft: as many drafts of one file may be left over.
const TRIES: u32 = 1000;

/// How many octets of a file's name stand in that of its draft: with what comes behind them they
/// are within the 255 that a file system takes.
const FRONT: usize = 240;

/// A file that is written under a name of its own.
#[derive(Drop)]
pub struct Draft<'a, R: Files + Alloc> {
    files: &'a R,
    /// The name that it has until it takes the other.
    name: PathBuf<R::A>,
    /// The name that it is to take.
    target: PathBuf<R::A>,
    /// What stands there, whose permissions the draft takes, and its owner where that may be.
    replaced: Option<Metadata>,
    writer: BufWriter<Noted<R::File>, R::A>,
}

/// A draft that could not take its name, and why.
#[derive(Drop)]
pub struct Unplaced<'a, R: Files + Alloc> {
    pub draft: Draft<'a, R>,
    pub fault: io::Error,
}

impl<'a, R: Files + Alloc> Draft<'a, R> {
    /// Makes a file beside this one, under a name that none has.
    pub fn begin(
        files: &'a R,
        target: PathBuf<R::A>,
        replaced: Option<Metadata>,
    ) -> io::Result<Self>
        ensures { IfOk result (λ d. draft_took d ≡ []) }
    {
        let (name, file) = make_beside(files, target.as_path())?;
        match BufWriter::with_capacity(files.alloc(), BUFFER, Noted::new(file)) {
            Ok(writer) => Ok(Draft {
                files,
                name,
                target,
                replaced,
                writer,
            }),
            Err(fault) => {
                let _ = fs::remove_file(files, &name);
                Err(fault.into())
            }
        }
    }

    /// Writes octets behind those that it took, and answers how many.
    pub fn write(&mut self, octets: &[u8]) -> io::Result<usize>
        ensures within { IfOk result (λ n. n ≤ length octets.now) }
        ensures took { IfOk result
            (λ n. draft_took self.new ≡ draft_took self.old ++ take n octets.now) }
        ensures kept { OnErr result (draft_took self.new ≡ draft_took self.old) }
    {
        self.writer.write(octets)
    }

    /// Gives it the name, once all that it took is written out.
    pub fn put_in_place(self) -> Result<History, Unplaced<'a, R>>
        ensures placed { IfOk result (λ file. file.octets ≡ draft_took self.entry) }
        ensures kept { IfErr result (λ it. draft_took it.draft ≡ draft_took self.entry) }
    {
        let mut draft = self;
        match draft.make_ready() {
            Ok(()) => draft.take_name(),
            Err(fault) => Err(Unplaced { draft, fault }),
        }
    }

    /// Writes out what is buffered, and has the device say that it has all: else a loss of power
    /// may leave an empty file under the name, and a full disk of another machine isn't told. What
    /// was replaced gives its permissions, and its owner where that may be.
    fn make_ready(&mut self) -> io::Result<()>
        ensures written { OnOk result (writer_buffer self.new.writer ≡ []) }
        ensures kept { draft_took self.new ≡ draft_took self.old }
    {
        self.writer.flush()?;
        let file = self.writer.get_ref().writer();
        if let Some(replaced) = &self.replaced {
            let owner = (Some(replaced.uid()), Some(replaced.gid()));
            let _ = unix::fs::chown(self.files, &self.name, owner.0, owner.1);
            file.set_permissions(replaced.permissions())?;
        }
        file.sync_data()
    }

    /// Gives it the name. All that it took is written out.
    fn take_name(self) -> Result<History, Unplaced<'a, R>>
        requires { writer_buffer self.writer ≡ [] }
        ensures placed { IfOk result (λ file. file.octets ≡ draft_took self.entry) }
        ensures kept { IfErr result (λ it. draft_took it.draft ≡ draft_took self.entry) }
    {
        match fs::rename(self.files, &self.name, &self.target) {
            Ok(()) => {
                let (noted, _) = self.writer.into_parts();
                Ok(noted.into_wrote())
            }
            Err(fault) => Err(Unplaced { draft: self, fault }),
        }
    }

    /// Writes out what is buffered, as far as that goes.
    pub(crate) fn flush(&mut self)
        ensures { draft_took self.new ≡ draft_took self.old }
    {
        let _ = self.writer.flush();
    }

    /// Removes it, as far as that goes.
    pub fn remove(&self) {
        let _ = fs::remove_file(self.files, &self.name);
    }

    /// The name that it has until it takes the other.
    pub(crate) fn name(&self) -> &str {
        self.name.as_str()
    }
}

/// Makes a file beside this one, and answers it with its name.
fn make_beside<R: Files + Alloc>(
    files: &R,
    target: Path<'_>,
) -> io::Result<(PathBuf<R::A>, R::File)> {
    let mut options = OpenOptions::new();
    options.write(true).create_new(true);
    for turn in 1..=TRIES {
        let name = beside(files, target, turn)?;
        match options.open(files, &name) {
            Ok(file) => return Ok((name, file)),
            Err(fault) if fault.kind() == ErrorKind::AlreadyExists => {}
            Err(fault) => return Err(fault),
        }
    }
    Err(io::Error::from(ErrorKind::AlreadyExists))
}

/// The name of a draft: that of the file and `.partial`, and where a file has that name a number
/// more, from 2 on.
fn beside<R: Alloc>(rt: &R, target: Path<'_>, turn: u32) -> io::Result<PathBuf<R::A>> {
    let Some(name) = target.file_name() else {
        return Err(io::Error::from(ErrorKind::NotFound));
    };
    let (front, _) = name.split_at(name.floor_char_boundary(FRONT));
    let name = if turn == 1 {
        format!(in rt.alloc(); "{front}.partial")?
    } else {
        format!(in rt.alloc(); "{front}.partial-{turn}")?
    };
    Ok(target.with_file_name(rt.alloc(), name.as_str())?)
}

/// Tells whether a file can be made beside this one, by making one and removing it: rights alone
/// don't tell (a full table of inodes, a file system that may only be read).
pub(crate) fn try_beside<R: Files + Alloc>(files: &R, target: Path<'_>) -> io::Result<()> {
    let (name, _file) = make_beside(files, target)?;
    fs::remove_file(files, &name)
}
