//! What stands where a file is to be written.
use crate::draft::try_beside;
use crate::stream::OUTPUT;
use std::alloc::Allocator;
use std::fs::{self, Files, Metadata, OpenOptions};
use std::io::{self, ErrorKind};
use std::path::PathBuf;

/// How many links are followed from a name to its file.
const LINKS: u32 = 40;

/// Where a file is to be written.
#[derive(Drop)]
pub enum Place<A: Allocator> {
    /// Nothing stands there, or a plain file, which is to be replaced.
    Plain {
        target: PathBuf<A>,
        replaced: Option<Metadata>,
    },
    /// A device or a pipe, which takes the octets as they come.
    Direct,
}

/// Finds out what stands there, following links. A place that can't be written to is a fault, also
/// a file that itself may not be written, though one could be put in its place. Of what stands
/// there nothing is changed.
pub fn find_place<R: Files + Alloc>(files: &R, name: &str) -> io::Result<Place<R::A>> {
    if is_stream(name) {
        return Ok(Place::Direct);
    }
    if name.ends_with('/') {
        return Err(io::Error::from(ErrorKind::IsADirectory));
    }
    let target = target_of(files, name)?;
    let replaced = match fs::metadata(files, &target) {
        Ok(found) => Some(found),
        Err(fault) if fault.kind() == ErrorKind::NotFound => None,
        Err(fault) => return Err(fault),
    };
    if let Some(found) = &replaced {
        if !found.is_file() && !found.is_dir() {
            return Ok(Place::Direct);
        }
        // (of a folder the system says so)
        OpenOptions::new().write(true).open(files, &target)?;
    }
    try_beside(files, target.as_path())?;
    Ok(Place::Plain { target, replaced })
}

/// Whether a name is of what a program was started with open, whatever that is.
fn is_stream(name: &str) -> bool {
    let fronts = ["/dev/fd/", "/proc/self/fd/"];
    name == OUTPUT
        || name == "/dev/stdout"
        || name == "/dev/stderr"
        || fronts.iter().any(|front| name.starts_with(*front))
}

/// The file that a name stands for: where a link has the name, what it leads to.
fn target_of<R: Files + Alloc>(files: &R, name: &str) -> io::Result<PathBuf<R::A>> {
    let mut target = PathBuf::from_str(files.alloc(), name)?;
    for _ in 0..LINKS {
        match fs::symlink_metadata(files, &target) {
            Ok(found) if found.is_symlink() => {
                let link = fs::read_link(files, &target)?;
                target.pop();
                target.push(&link)?;
            }
            Ok(_) => return Ok(target),
            Err(fault) if fault.kind() == ErrorKind::NotFound => return Ok(target),
            Err(fault) => return Err(fault),
        }
    }
    Err(io::Error::from(ErrorKind::FilesystemLoop))
}
