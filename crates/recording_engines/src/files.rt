//! Which of some files comes next, and what is known of them.
ghost use Rattle.std.specs.Prelude.{◌≡◌, ◌≤◌, ◌+◌, IfSome, List};
ghost use Rattle.std.specs.List.{AllByRecursion};
ghost use Rattle.recording_counts.specs.LeftOut.{left_out_of};
ghost use Rattle.recording_counts.specs.declared.omission.Omission.{Omission as Reason};
ghost use Rattle.recording_engines.specs.Files.{AreLeftOut, HasKnownOctets, IsEarliest, IsSooner};
ghost use Rattle.recording_engines.specs.Files.{IsReadByFlows, left_out_by};

use crate::file::ImportFile;
use recording_counts::LeftOut;
use st_format::ByteSource;
use std::alloc::Allocator;

/// The place of the file that comes next, the first of those of one moment, and the moment.
pub(crate) fn earliest<A: Allocator, S: ByteSource>(
    files: &[ImportFile<A, S>],
) -> Option<(usize, u64)>
    ensures { IsEarliest files.now result }
{
    let Some((first, rest)) = files.split_first() else {
        return None;
    };
    sooner(first.next_moment(), earliest(rest), files.len())
}

/// The sooner of a first one, and of the one of those behind it, of so many; the first of those of
/// one moment.
fn sooner(first: Option<u64>, later: Option<(usize, u64)>, _count: usize) -> Option<(usize, u64)>
    requires { IfSome later (λ x. x.0 + 1 ≤ _count) }
    ensures { IsSooner first later result }
{
    match (first, later) {
        (None, None) => None,
        (None, Some((place, moment))) => Some((place + 1, moment)),
        (Some(moment), None) => Some((0, moment)),
        (Some(moment), Some((place, before))) => {
            if before < moment {
                Some((place + 1, before))
            } else {
                Some((0, moment))
            }
        }
    }
}

fn left_out_one<A: Allocator, S: ByteSource>(file: &ImportFile<A, S>) -> LeftOut
    ensures { result ≡ left_out_by file.now }
{
    match file {
        ImportFile::Closed(_) => LeftOut::new(),
        ImportFile::Open(reader) => reader.left_out(),
        ImportFile::Taken => LeftOut::new(),
    }
}

pub(crate) fn left_out<A: Allocator, S: ByteSource>(files: &[ImportFile<A, S>]) -> LeftOut
    ensures { (omissions : List Reason) → AreLeftOut files.now omissions
        → result ≡ left_out_of omissions }
{
    let Some((first, rest)) = files.split_first() else {
        return LeftOut::new();
    };
    let mut total = left_out_one(first);
    total.add(&left_out(rest));
    total
}

/// What is known of the octets of a file, by where its reader stands. A caller's proof learns it
/// from here; nothing is done.
#[inline(always)]
pub fn know<A: Allocator, S: ByteSource>(file: &ImportFile<A, S>)
    ensures known { HasKnownOctets S.gave S.ended file.now }
    ensures by_flows { IsReadByFlows file.now }
{
    match file {
        ImportFile::Closed(_) => {}
        ImportFile::Open(reader) => reader.history(),
        ImportFile::Taken => {}
    }
}

/// The same of files.
pub(crate) fn know_all<A: Allocator, S: ByteSource>(files: &[ImportFile<A, S>])
    ensures known { AllByRecursion (HasKnownOctets S.gave S.ended) files.now }
    ensures by_flows { AllByRecursion IsReadByFlows files.now }
{
    let Some((first, rest)) = files.split_first() else {
        return;
    };
    know(first);
    know_all(rest);
}
