//! The window of the first timestamps that come of captures and recordings.
ghost use Rattle.std.specs.Prelude.{◌≡◌, ◌<◌, All, IfErr, IfOk, OnOk, Some, length};
ghost use Rattle.std.specs.List.{zip};
ghost use Rattle.std.specs.Option.{option_copied};
ghost use Rattle.capture_runs.specs.Looked.{ReadNone};
ghost use Rattle.capture_runs.specs.Replayed.{ReplayedRead};
ghost use Rattle.capture_runs.specs.Window.{AskForReceiver, IsBehindAsked, IsFound, IsSought};
ghost use Rattle.capture_runs.specs.Window.{IsLookedRefusal, IsWindowWordRefusal, window_text};
ghost use Rattle.run_outcome.specs.Refusing.{OfRefusal};
ghost use Rattle.window_finding.specs.Finding.{FindsFirst, IsFindRefusal};

use crate::replayed::Replayed;
use capture_engines::{Wanted, check_words};
use flow::Flows;
use run_outcome::{Fault, Refusal, read_source};
use std::snapshot::Snapshot;
use window_finding::{Sought, find_window, read_first, spell_timestamps};

/// The window that was found.
#[derive(Drop)]
pub struct Found<'a> {
    /// Its timestamps, with commas between.
    pub window: Vec<u8>,
    /// The files that it was found in, as they were before. Only proofs see them.
    pub fresh: Snapshot<Vec<Replayed<'a>>>,
    /// The same as they were then.
    pub read: Snapshot<Vec<Replayed<'a>>>,
}

/// How many of the first timestamps the words ask for, and of which source; none where they list
/// timestamps. No file is looked at.
///
/// # Errors
///
/// `ReceiveWindow` where the window is neither, and else `ReceiveSource` where the source is
/// neither a number nor `any`; and that memory was wanted.
pub(crate) fn read_words(rt: &HostRuntime, wanted: Wanted<'_>) -> Result<Option<Sought>, Fault>
    ensures asked { IfOk result (IsSought wanted.entry.window.now wanted.entry.ssrc.now) }
    ensures words { OnOk result (AskForReceiver wanted.entry.window.now wanted.entry.ssrc.now) }
    ensures refusal { IfErr result (λ f. OfRefusal f
        (IsWindowWordRefusal wanted.entry.window.now wanted.entry.ssrc.now)) }
    ensures first { IfErr result (λ f. OfRefusal f (IsBehindAsked wanted.entry.window.now)) }
{
    let Some(count) = read_first(wanted.window) else {
        check_words(rt.alloc(), wanted)?;
        return Ok(None);
    };
    match read_source(wanted.ssrc) {
        Some(ssrc) => Ok(Some(Sought { count, ssrc })),
        None => Err(Fault::Refused(Refusal::ReceiveSource)),
    }
}

/// Finds the window that the words ask for in files of which nothing was read yet, each taken as
/// `ways` say, by the SDP text where one is given.
pub(crate) fn find_in<'a>(
    rt: &HostRuntime,
    wanted: Wanted<'_>,
    sought: Sought,
    said: Option<&[u8]>,
    files: &mut Vec<Replayed<'a>>,
    ways: &[Result<Flows, Refusal>],
) -> Result<Found<'a>, Fault>
    requires unread { All ReadNone files.old.items }
    requires asked { IsSought wanted.window.now wanted.ssrc.now (Some sought) }
    ensures found { IfOk result (IsFound wanted.entry.window.now wanted.entry.ssrc.now
        (option_copied said.entry) ways.now) }
    ensures refusal { IfErr result (λ f. OfRefusal f (IsLookedRefusal wanted.entry.window.now
        wanted.entry.ssrc.now (option_copied said.entry) ways.now files.new.items)) }
{
    let fresh = Snapshot::of(files);
    let window = find_timestamps(rt, sought, said, files, ways)?;
    Ok(Found {
        window: spell_timestamps(rt.alloc(), &window)?,
        fresh,
        read: Snapshot::of(files),
    })
}

fn find_timestamps<'a>(
    rt: &HostRuntime,
    sought: Sought,
    said: Option<&[u8]>,
    files: &mut Vec<Replayed<'a>>,
    ways: &[Result<Flows, Refusal>],
) -> Result<Vec<u32>, Fault>
    ensures len { length files.new.items ≡ length files.old.items }
    ensures found { IfOk result (λ window. FindsFirst sought.count sought.ssrc
        (option_copied said.entry) ways.now ReplayedRead (zip files.old.items files.new.items)
        window.items) }
    ensures some { IfOk result (λ window. 0 < length window.items) }
    ensures refusal { IfErr result (λ f. OfRefusal f (IsFindRefusal sought.count sought.ssrc
        (option_copied said.entry) ways.now ReplayedRead
        (zip files.old.items files.new.items))) }
{
    find_window(rt.alloc(), sought, said, files.as_mut_slice(), ways)
}

/// The text of a window: of that which was found, or else of that which the words list.
pub(crate) fn window_of<'w>(found: &'w Option<Found<'_>>, listed: &'w [u8]) -> &'w [u8]
    ensures { result.now ≡ window_text found.now listed.now }
{
    match found {
        Some(found) => &found.window,
        None => listed,
    }
}
