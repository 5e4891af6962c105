//! A directory that `follow` writes pictures into, where one is named.
ghost use Rattle.std.specs.Prelude.{◌≡◌, ◌≤◌, ◌+◌, ◌++◌, ◌∷◌, [], IfErr, OnErr, OnOk, length};
ghost use Rattle.arrayvec.specs.ArrayString.{array_string_len};
ghost use Rattle.follow_runs.specs.Outputs.{AreNoPictures};
ghost use Rattle.devices.specs.Filed.{directory_failures, filed_files};
ghost use Rattle.frame_sinks.specs.Files.{stamped_name};
ghost use Rattle.media_file.specs.PictureFile.{picture_text};
ghost use Rattle.run_outcome.specs.Fault.{Accounts, IfRefused, counts};

use arrayvec::ArrayString;
use devices::{DirectoryOutput, Writing};
use form_files::{Form, write_form};
use frame_sinks::PictureFiles;
use itoa::Buffer;
use run_outcome::Fault;
use st_format::{DeviceFault, Picture};
use std::alloc::Allocator;

/// Room for the name of any picture's file, in octets.
const NAME: usize = 64;

/// A directory that pictures are written into, each as a file that a timestamp names.
#[derive(Drop)]
pub struct PictureDirectory<'a> {
    pub directory: DirectoryOutput<'a>,
}

impl PictureFiles for PictureDirectory<'_> {
    ghost files = { λ d. filed_files d.directory };

    ghost failures = { λ d. directory_failures d.directory };

    fn put<A: Allocator>(&mut self, timestamp: u32, picture: &Picture<A>) -> Result<(), Fault> {
        let name = name_of(timestamp);
        write_file(&mut self.directory, name.as_str(), picture)
    }
}

/// The name of a timestamp's file, which always has room.
fn name_of(timestamp: u32) -> ArrayString<NAME>
    ensures { result.bytes ≡ stamped_name timestamp }
{
    let mut name = ArrayString::<NAME>::new();
    let mut digits = Buffer::new();
    add(&mut name, digits.format(timestamp));
    add(&mut name, ".pic");
    name
}

/// Adds a part to a name. Its callers show that there is room, so no part is refused.
fn add(name: &mut ArrayString<NAME>, part: &str)
    requires { array_string_len name.old + length part.now ≤ NAME }
    ensures { name.new.bytes ≡ name.old.bytes ++ part.now }
{
    match name.try_push_str(part) {
        Ok(()) => (),
        Err(_) => unreachable!(),
    }
}

/// Writes a picture as the file of this name.
fn write_file<A: Allocator>(
    directory: &mut DirectoryOutput<'_>,
    name: &str,
    picture: &Picture<A>,
) -> Result<(), Fault>
    ensures filed { OnOk result (filed_files directory.new
        ≡ filed_files directory.old ++ (name.now, picture_text picture.now) ∷ []) }
    ensures unfiled { OnErr result (filed_files directory.new ≡ filed_files directory.old) }
    ensures unrefused { IfErr result (λ f. IfRefused f ⊥) }
    ensures failures { Accounts result (counts (directory_failures directory.old)
        (directory_failures directory.new) ∷ []) }
{
    directory.begin(name)?;
    write_form(&mut directory.file, Form::Picture, picture)?;
    directory.end(name)?;
    Ok(())
}

/// The directory of this name, where one is named, which isn't looked at yet.
pub(crate) fn named_directory<'a>(
    rt: &'a HostRuntime,
    name: Option<&'a str>,
) -> Option<PictureDirectory<'a>>
    ensures { AreNoPictures result }
{
    match name {
        Some(name) => Some(PictureDirectory {
            directory: DirectoryOutput::new(rt, name),
        }),
        None => None,
    }
}

/// Looks at the directory, in which nothing is changed. Where none is named that is no failure.
pub(crate) fn find_directory(pictures: &mut Option<PictureDirectory<'_>>) -> Result<(), DeviceFault>
    requires { AreNoPictures pictures.old }
    ensures { AreNoPictures pictures.new }
{
    match pictures {
        Some(pictures) => pictures.directory.find(),
        None => Ok(()),
    }
}

/// How the writing into the directory went, for what a person is told of it.
pub(crate) fn directory_writing<'b>(
    pictures: &'b Option<PictureDirectory<'_>>,
) -> Option<Writing<'b>> {
    match pictures {
        Some(pictures) => Some(pictures.directory.writing()),
        None => None,
    }
}
