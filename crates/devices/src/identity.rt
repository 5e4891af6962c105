//! Which file has a name, as the system tells files apart.
use std::fs;
use std::os::unix::fs::MetadataExt;

/// A plain file, by what no other has, whatever it is called.
#[derive(Clone, Copy, PartialEq)]
pub struct Identity {
    device: u64,
    inode: u64,
}

/// The plain file of a name, through links too; none where nothing has the name, or what has it is
/// a device, a pipe or a folder.
pub(crate) fn identity_of(rt: &HostRuntime, name: &str) -> Option<Identity> {
    let found = fs::metadata(rt, name).ok()?;
    if found.is_file() {
        Some(Identity {
            device: found.dev(),
            inode: found.ino(),
        })
    } else {
        None
    }
}
