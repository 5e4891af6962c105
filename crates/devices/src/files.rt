//! Files that are read, by a name that may be absent, and by a list of names.
ghost use Rattle.std.specs.Prelude.{◌≡◌, ◌↔◌, [], All, IfOk, IfSome, IsSome, length, map};
ghost use Rattle.std.specs.Prelude.{option_map, vec_len};
ghost use Rattle.devices.specs.Passed.{file_gave, file_path};

use crate::file_source::FileSource;
use crate::identity::Identity;
use crate::meter::Meter;
use crate::standing::Reading;
use std::alloc::AllocError;

/// The file of this name, where one is named, which isn't looked at yet.
pub fn named_file<'a>(rt: &'a HostRuntime, name: Option<&'a str>) -> Option<FileSource<'a>>
    ensures named { IsSome result ↔ IsSome name.entry }
    ensures path { option_map file_path result ≡ option_map (λ n. n.now) name.entry }
    ensures fresh { IfSome result (λ f. file_gave f ≡ []) }
{
    match name {
        Some(name) => Some(FileSource::new(rt, name)),
        None => None,
    }
}

/// The files of these names, in their order, none of which is looked at yet.
pub fn named_files<'a>(
    rt: &'a HostRuntime,
    names: &[&'a str],
) -> Result<Vec<FileSource<'a>>, AllocError>
    ensures len { IfOk result (λ files. vec_len files ≡ length names.now) }
    ensures paths { IfOk result (λ files. map file_path files.items
        ≡ map (λ n. n.now) names.now) }
    ensures fresh { IfOk result (λ files. All (λ f. file_gave f ≡ []) files.items) }
{
    metered_files(rt, names, &Meter::silent())
}

/// The same, which count among the files of a meter, and tell it how much is read.
pub fn metered_files<'a>(
    rt: &'a HostRuntime,
    names: &[&'a str],
    meter: &Meter,
) -> Result<Vec<FileSource<'a>>, AllocError>
    ensures len { IfOk result (λ files. vec_len files ≡ length names.now) }
    ensures paths { IfOk result (λ files. map file_path files.items
        ≡ map (λ n. n.now) names.now) }
    ensures fresh { IfOk result (λ files. All (λ f. file_gave f ≡ []) files.items) }
{
    let mut files = Vec::new(rt.alloc());
    for name in names {
        files.push(FileSource::new(rt, name).metered(meter))?;
    }
    Ok(files)
}

/// The files of these names, in their order, of which `-` is standard input. None is looked at yet.
pub fn given_files<'a>(
    rt: &'a HostRuntime,
    names: &[&'a str],
) -> Result<Vec<FileSource<'a>>, AllocError>
    ensures len { IfOk result (λ files. vec_len files ≡ length names.now) }
    ensures fresh { IfOk result (λ files. All (λ f. file_gave f ≡ []) files.items) }
{
    let mut files = Vec::new(rt.alloc());
    for name in names {
        files.push(FileSource::given(rt, name))?;
    }
    Ok(files)
}

/// Where the reading of a file stands, where one is named.
pub fn reading_of<'a>(file: &Option<FileSource<'a>>) -> Option<Reading<'a>>
    ensures { IsSome result ↔ IsSome file.now }
{
    match file {
        Some(file) => Some(file.reading()),
        None => None,
    }
}

/// Where the reading of a file stands, where one is named and it began.
pub fn reading_begun<'a>(file: &Option<FileSource<'a>>) -> Option<Reading<'a>> {
    match file {
        Some(file) => file.begun(),
        None => None,
    }
}

/// Where the reading of the last file of a list stands that was begun.
pub fn last_begun<'a>(files: &[FileSource<'a>]) -> Option<Reading<'a>> {
    let mut last = None;
    for file in files {
        last = file.begun().or(last);
    }
    last
}

/// Whether a file that is read is the one that is to be written.
pub fn any_is(files: &[FileSource<'_>], file: Option<Identity>) -> bool {
    files.iter().any(|it| it.is(file))
}

/// The same of a file that may not be named.
pub fn one_is(named: &Option<FileSource<'_>>, file: Option<Identity>) -> bool {
    match named {
        Some(named) => named.is(file),
        None => false,
    }
}
