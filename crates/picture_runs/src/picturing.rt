//! `picture` over the devices of this machine.
ghost use Rattle.std.specs.Prelude.{◌≡◌, ◌≢◌, ◌∷◌, [], None, IfErr, IfSome, IsFalse, IsTrue};
ghost use Rattle.std.specs.Prelude.{OnOk, codes, option_map};
ghost use Rattle.command_end.specs.InTurn.{IsInTurn};
ghost use Rattle.devices.specs.Passed.{FileRead, file_ended, file_failures, file_gave, file_path};
ghost use Rattle.devices.specs.Passed.{HasNoPart, IsInPlace, IsUnplaced, LeavesNoPart, file_took};
ghost use Rattle.devices.specs.Passed.{writing_failures};
ghost use Rattle.picture_engine.specs.Refused.{IsShowRefusal};
ghost use Rattle.picture_engine.specs.Shown.{ShowsFrame};
ghost use Rattle.picture_engine.specs.Views.{SaysNoView, SaysView};
ghost use Rattle.picture_runs.specs.Picturing.{IsAskedBy, IsPictureRun, IsViewAsked};
ghost use Rattle.run_outcome.specs.Fault.{Accounts, IfRefused, counts, failures_in};
ghost use Rattle.run_outcome.specs.Moments.{WasRead, pair};
ghost use Rattle.run_outcome.specs.Refusing.{OfRefusal};
ghost use Rattle.run_outcome.specs.declared.refusal.Refusal.TheVariants.{FrameFill};
ghost use Rattle.run_outcome.specs.declared.refusal.Writer.TheVariants.{Picture};
ghost use Rattle.std.specs.Option.{option_copied};

use crate::asked::form_of;
use command_end::{Command, Devices, Hints, Ran, find_output};
use command_line::PictureWords;
use devices::{FileOutput, FileSource, OutputSink, Rest, named_file, one_is, reading_begun};
use picture_engine::{PictureAsked, View, check_view};
use run_outcome::{Fault, Writer};

/// Writes a frame of a receiver's file as a picture's file.
#[derive(Drop)]
pub struct PictureCommand<'a> {
    rt: &'a HostRuntime,
    pub asked: PictureAsked<'a>,
    pub state: FileSource<'a>,
    /// The held picture's file, where one is named and no marks are asked for.
    pub hold: Option<FileSource<'a>>,
    pub out: FileOutput<'a>,
    /// Whether that is one of the files that are read.
    pub is_input: bool,
}

impl<'a> PictureCommand<'a> {
    /// The command of these words, of which nothing is done yet.
    pub fn new(rt: &'a HostRuntime, words: &PictureWords<'a>) -> Self
        ensures new { ⟦<PictureCommand<'a> as Command>⟧.is_new result }
        ensures asked { IsPictureRun words.now result.asked result.state result.hold result.out }
    {
        let state = given_file(rt, words.state);
        let hold = held_file(rt, words);
        let out = FileOutput::new(rt, words.out, Rest::Goes);
        let is_input = is_read(&out, &state, &hold);
        PictureCommand {
            rt,
            asked: asked(words),
            state,
            hold,
            out,
            is_input,
        }
    }
}

fn asked<'a>(words: &PictureWords<'a>) -> PictureAsked<'a>
    ensures { IsAskedBy words.now result }
{
    PictureAsked {
        timestamp: words.timestamp,
        view: view(words),
        form: form_of(words.form, words.out),
    }
}

/// How the frame is shown: where it is marked, a fill says nothing.
fn view<'a>(words: &PictureWords<'a>) -> View<'a>
    ensures { IsViewAsked words.now result }
{
    if words.is_marked {
        return View::Marked;
    }
    View::Settled(octets(words.fill))
}

fn octets(text: Option<&str>) -> Option<&[u8]>
    ensures { option_copied result ≡ option_copied text.entry }
{
    match text {
        Some(text) => Some(text.as_bytes()),
        None => None,
    }
}

/// The file of this name, or standard input where that is `-`. It isn't looked at yet.
fn given_file<'a>(rt: &'a HostRuntime, name: &'a str) -> FileSource<'a>
    ensures named { name.now ≢ codes "-" → file_path result ≡ name.now }
    ensures fresh { file_gave result ≡ [] }
{
    if name == "-" {
        FileSource::given(rt, name)
    } else {
        FileSource::new(rt, name)
    }
}

/// The held picture's file, where one is named and no marks are asked for.
fn held_file<'a>(rt: &'a HostRuntime, words: &PictureWords<'a>) -> Option<FileSource<'a>>
    ensures named { IsFalse words.now.is_marked
        → option_map file_path result ≡ option_map (λ n. n.now) words.now.hold }
    ensures marked { IsTrue words.now.is_marked → result ≡ None }
    ensures fresh { IfSome result (λ f. file_gave f ≡ []) }
{
    if words.is_marked {
        return None;
    }
    named_file(rt, words.hold)
}

/// Whether the file that is to be written is one of those that are read.
fn is_read(out: &FileOutput<'_>, state: &FileSource<'_>, hold: &Option<FileSource<'_>>) -> bool {
    let file = out.identity();
    state.is(file) || one_is(hold, file)
}

/// Looks at the words, and at the place of the picture, before anything is read, and writes it.
fn picture<'a>(
    rt: &HostRuntime,
    asked: PictureAsked<'_>,
    state: &mut FileSource<'a>,
    hold: &mut Option<FileSource<'a>>,
    out: &mut FileOutput<'_>,
    is_input: bool,
) -> Result<(), Fault>
    requires unplaced { IsUnplaced out.old }
    ensures shown { OnOk result (ShowsFrame (FileRead state.old state.new)
        (WasRead file_gave file_ended) (pair hold.old hold.new) asked.entry
        (file_took out.old) (file_took out.new)) }
    ensures ended { OnOk result (file_ended state.new) }
    ensures quiet { IfErr result (λ f. IfRefused f (file_took out.new ≡ file_took out.old)) }
    ensures unplaced { IsUnplaced out.new }
    ensures rest { LeavesNoPart out.old → LeavesNoPart out.new }
    ensures apart { OnOk result (IsFalse is_input) }
    ensures refusal { IfErr result (λ f. OfRefusal f (IsInTurn Picture is_input
        (SaysView asked.entry.view) (λ r. (r ≡ FrameFill) × SaysNoView asked.entry.view)
        (IsShowRefusal (FileRead state.old state.new) (WasRead file_gave file_ended)
        (pair hold.old hold.new) asked.entry))) }
    ensures owed { Accounts result (counts (file_failures state.old) (file_failures state.new)
        ∷ counts (failures_in file_failures hold.old) (failures_in file_failures hold.new)
        ∷ counts (writing_failures out.old) (writing_failures out.new) ∷ []) }
{
    check_view(asked.view)?;
    find_output(out, is_input, Writer::Picture)?;
    picture_engine::picture(rt.alloc(), asked, state, hold, &mut out.sink)
}

impl<'a> Command for PictureCommand<'a> {
    ghost is_new = { λ c. (file_gave c.state ≡ []) × IfSome c.hold (λ f. file_gave f ≡ [])
        × (file_took c.out ≡ []) × IsUnplaced c.out × LeavesNoPart c.out };

    // What is written is the frame of the receiver whose file was read, as it is shown, in the form
    // that is asked for.
    ghost does = { λ old new. ShowsFrame (FileRead old.state new.state)
        (WasRead file_gave file_ended) (pair old.hold new.hold) old.asked
        (file_took old.out) (file_took new.out) × file_ended new.state };

    // Then nothing is written.
    ghost is_refused = { λ old new r. IsInTurn Picture old.is_input (SaysView old.asked.view)
        (λ x. (x ≡ FrameFill) × SaysNoView old.asked.view)
        (IsShowRefusal (FileRead old.state new.state)
        (WasRead file_gave file_ended) (pair old.hold new.hold) old.asked) r
        × (file_took new.out ≡ file_took old.out) };

    ghost is_placed = { λ c. IsInPlace c.out × IsFalse c.is_input };

    ghost is_unplaced = { λ c. IsUnplaced c.out × HasNoPart c.out };

    ghost owes = { λ old new outcome. Accounts outcome
        (counts (file_failures old.state) (file_failures new.state)
        ∷ counts (failures_in file_failures old.hold) (failures_in file_failures new.hold)
        ∷ counts (writing_failures old.out) (writing_failures new.out) ∷ []) };

    fn run(&mut self) -> Ran {
        let outcome = picture(
            self.rt,
            self.asked,
            &mut self.state,
            &mut self.hold,
            &mut self.out,
            self.is_input,
        );
        Ran {
            outcome,
            is_whole: self.out.settle(outcome.is_ok()),
        }
    }

    fn devices(&self) -> Devices<'_> {
        Devices {
            sdp: None,
            read: reading_begun(&self.hold).or(self.state.begun()),
            written: Some(self.out.writing()),
            output: OutputSink::new(self.rt.stdout()).writing(),
            kept: None,
            hints: Hints::none(),
        }
    }
}
