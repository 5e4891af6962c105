//! Tests: files of which one call fails, and what stands under a name then.
use devices::{Draft, Place, find_place};
use std::alloc::{Allocator, Global};
use std::cell::Cell;
use std::fs::{self, File, Files, Metadata, OpenFile, OpenOptions, Permissions};
use std::io::{self, ErrorKind, Read, Seek, SeekFrom, Write};
use std::rc::Rc;

/// How many calls go on before one fails; at 0 none does.
type Calls = Rc<Cell<u32>>;

/// Lets a call go on, or has it fail.
fn step(calls: &Calls) -> io::Result<()> {
    let left = calls.get();
    calls.set(left.saturating_sub(1));
    if left == 1 {
        return Err(io::Error::from(ErrorKind::StorageFull));
    }
    Ok(())
}

/// Files of this machine, of which one call fails.
#[derive(Drop)]
struct Failing<'a> {
    rt: &'a HostRuntime,
    calls: Calls,
}

#[derive(Drop)]
struct FailingFile {
    file: File,
    calls: Calls,
}

impl Alloc for Failing<'_> {
    type A = Global;

    fn alloc(&self) -> Global {
        self.rt.alloc()
    }
}

impl Files for Failing<'_> {
    type File = FailingFile;

    type Dir = <HostRuntime as Files>::Dir;

    fn open_file(&self, how: &OpenOptions, path: &str) -> io::Result<FailingFile> {
        step(&self.calls)?;
        let file = self.rt.open_file(how, path)?;
        Ok(FailingFile {
            file,
            calls: self.calls.clone()?,
        })
    }

    fn open_dir(&self, path: &str) -> io::Result<Self::Dir> {
        step(&self.calls)?;
        self.rt.open_dir(path)
    }

    fn metadata(&self, path: &str) -> io::Result<Metadata> {
        step(&self.calls)?;
        self.rt.metadata(path)
    }

    fn symlink_metadata(&self, path: &str) -> io::Result<Metadata> {
        step(&self.calls)?;
        self.rt.symlink_metadata(path)
    }

    fn copy(&self, from: &str, to: &str) -> io::Result<u64> {
        step(&self.calls)?;
        self.rt.copy(from, to)
    }

    fn rename(&self, from: &str, to: &str) -> io::Result<()> {
        step(&self.calls)?;
        self.rt.rename(from, to)
    }

    fn remove_file(&self, path: &str) -> io::Result<()> {
        step(&self.calls)?;
        self.rt.remove_file(path)
    }

    fn create_dir(&self, path: &str) -> io::Result<()> {
        step(&self.calls)?;
        self.rt.create_dir(path)
    }

    fn remove_dir(&self, path: &str) -> io::Result<()> {
        step(&self.calls)?;
        self.rt.remove_dir(path)
    }

    fn remove_dir_all<B: Allocator>(&self, alloc: B, path: &str) -> io::Result<()> {
        step(&self.calls)?;
        self.rt.remove_dir_all(alloc, path)
    }

    fn chown(&self, path: &str, uid: Option<u32>, gid: Option<u32>) -> io::Result<()> {
        step(&self.calls)?;
        self.rt.chown(path, uid, gid)
    }
}

impl Read for FailingFile {
    fn read(&mut self, buf: &mut [u8]) -> io::Result<usize> {
        self.file.read(buf)
    }
}

impl Write for FailingFile {
    fn write(&mut self, octets: &[u8]) -> io::Result<usize> {
        step(&self.calls)?;
        self.file.write(octets)
    }

    fn flush(&mut self) -> io::Result<()> {
        step(&self.calls)?;
        self.file.flush()
    }
}

impl Seek for FailingFile {
    fn seek(&mut self, to: SeekFrom) -> io::Result<u64> {
        self.file.seek(to)
    }
}

impl OpenFile for FailingFile {
    fn metadata(&self) -> io::Result<Metadata> {
        self.file.metadata()
    }

    fn set_len(&self, size: u64) -> io::Result<()> {
        self.file.set_len(size)
    }

    fn sync_all(&self) -> io::Result<()> {
        self.file.sync_all()
    }

    fn sync_data(&self) -> io::Result<()> {
        step(&self.calls)?;
        self.file.sync_data()
    }

    fn set_permissions(&self, permissions: Permissions) -> io::Result<()> {
        step(&self.calls)?;
        self.file.set_permissions(permissions)
    }
}

/// Writes octets under a name as the program does, and tells whether they took it.
fn replace(files: &Failing<'_>, name: &str, octets: &[u8]) -> io::Result<bool> {
    let Place::Plain { target, replaced } = find_place(files, name)? else {
        return Ok(false);
    };
    let mut draft = Draft::begin(files, target, replaced)?;
    draft.write(octets)?;
    match draft.put_in_place() {
        Ok(_) => Ok(true),
        Err(unplaced) => {
            unplaced.draft.remove();
            Err(unplaced.fault)
        }
    }
}

/// A run whose call of this number fails.
fn fail_at(rt: &HostRuntime, call: u32, octets: &[u8]) -> io::Result<bool> {
    let calls = Rc::new(rt.alloc(), Cell::new(call))?;
    let files = Failing { rt, calls };
    replace(&files, "kept", octets)
}

#[test]
fn what_stood_there_stands_there(rt: HostRuntime) -> io::Result<()> {
    let octets = vec![in rt.alloc(); 7u8; 300_000]?;
    fs::write(&rt, "kept", b"what stood there")?;

    // symlink_metadata, metadata, open to see whether it may be written, open beside it, remove;
    // open beside it, write, flush, chown (which may fail), chmod, sync, rename
    for call in [1, 2, 3, 4, 5, 6, 7, 8, 10, 11, 12] {
        let outcome = fail_at(&rt, call, &octets);
        assert!(rt; outcome.is_err(), "call {call}");
        // (a file that could not be removed)
        let _ = fs::remove_file(&rt, "kept.partial");
        let stands = fs::read(&rt, "kept")?;
        assert_eq!(rt;
            stands.as_slice(),
            b"what stood there".as_slice(),
            "call {call}"
        );
    }
    for call in [9, 13] {
        fs::write(&rt, "kept", b"what stood there")?;
        let outcome = fail_at(&rt, call, &octets);
        assert!(rt; matches!(outcome, Ok(true)), "call {call}");
        let stands = fs::read(&rt, "kept")?;
        assert!(rt; stands.as_slice() == octets.as_slice(), "call {call}");
    }
    Ok(())
}
