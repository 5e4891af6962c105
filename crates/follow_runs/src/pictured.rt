//! A file that `follow` writes, where one is named, and the sink that writes pictures to it.
ghost use Rattle.std.specs.Prelude.{◌≡◌, [], IfErr, IfOk, IfSome, IsFalse, IsSome, IsTrue};
ghost use Rattle.std.specs.Prelude.{OnOk};
ghost use Rattle.std.specs.Option.{option_copied};
ghost use Rattle.follow_runs.specs.Pictured.{IsFillGiven, IsFillRefusal, IsSinkOver, SameFile};
ghost use Rattle.follow_runs.specs.Pictured.{file_under};
ghost use Rattle.devices.specs.Passed.{IsInPlace, IsUnplaced, file_took};
ghost use Rattle.run_outcome.specs.Refusing.{OfRefusal};
ghost use Rattle.run_outcome.specs.declared.refusal.Refusal.TheVariants.{OutputIsInput};
ghost use Rattle.run_outcome.specs.declared.refusal.Writer.TheVariants.{Follow};

use crate::unplaced::UnplacedOutput;
use command_end::find_output;
use devices::{FileOutput, Rest, Writing};
use frame_sinks::{Filling, FormSink};
use receiver_engines::read_fill;
use run_outcome::{Fault, Refusal, Writer};

/// The file of this name, where one is named, which isn't looked at yet. A part of it is of use,
/// and stays; a pipe gets each frame at once.
pub(crate) fn named_output<'a>(rt: &'a HostRuntime, name: Option<&'a str>) -> Option<FileOutput<'a>>
    ensures { IfSome result (λ f. (file_took f ≡ []) × IsUnplaced f) }
{
    match name {
        Some(name) => Some(FileOutput::new(rt, name, Rest::Stays).at_once()),
        None => None,
    }
}

/// The values of a fill, where its text is given; `FollowFill` where the text says none.
pub(crate) fn fill_said(text: Option<&[u8]>) -> Result<Option<[u16; 3]>, Fault>
    ensures given { IfOk result (λ fill. IsFillGiven (option_copied text.entry) fill) }
    ensures refusal { IfErr result (λ f. OfRefusal f (IsFillRefusal (option_copied text.entry))) }
{
    match text {
        Some(text) => match read_fill(text) {
            Some(fill) => Ok(Some(fill)),
            None => Err(Fault::Refused(Refusal::FollowFill)),
        },
        None => Ok(None),
    }
}

/// Looks at the place of the file, where one is named; refuses it if it is one that is read.
pub(crate) fn find_place(out: &mut Option<FileOutput<'_>>, is_input: bool) -> Result<(), Fault>
    requires { IfSome out.old (λ f. (file_took f ≡ []) × IsUnplaced f) }
    ensures unwritten { IfSome out.new (λ f. (file_took f ≡ []) × IsUnplaced f) }
    ensures apart { OnOk result (IfSome out.new (λ _. IsFalse is_input)) }
    ensures refusal { IfErr result (λ f. OfRefusal f
        (λ r. (r ≡ OutputIsInput Follow) × IsTrue is_input)) }
{
    match out {
        Some(file) => find_output(file, is_input, Writer::Follow),
        None => Ok(()),
    }
}

/// A sink of pictures over the file, where there is one.
pub(crate) fn sink_over<'a>(
    rt: &HostRuntime,
    filling: Filling,
    fill: Option<[u16; 3]>,
    out: Option<FileOutput<'a>>,
) -> Option<FormSink<UnplacedOutput<'a>>>
    requires { IfSome out (λ f. IsUnplaced f) }
    ensures { IsSinkOver filling fill out.entry result }
{
    match out {
        Some(file) => Some(FormSink::new(rt.alloc(), filling, fill, UnplacedOutput { file })),
        None => None,
    }
}

/// The file below a sink of pictures, where there is one.
pub(crate) fn file_of<'a>(pictures: Option<FormSink<UnplacedOutput<'a>>>) -> Option<FileOutput<'a>>
    ensures file { result ≡ file_under pictures.entry }
    ensures unplaced { IfSome result (λ f. IsUnplaced f) }
{
    match pictures {
        Some(pictures) => Some(file_written(pictures)),
        None => None,
    }
}

fn file_written<'a>(pictures: FormSink<UnplacedOutput<'a>>) -> FileOutput<'a>
    ensures file { result ≡ pictures.entry.sink.file }
    ensures unplaced { IsUnplaced result }
{
    let below = pictures.into_sink();
    below.file
}

/// Ends the writing of the file, where there is one, and tells whether that went well.
pub(crate) fn settle(out: &mut Option<FileOutput<'_>>, is_done: bool) -> bool
    requires { IfSome out.old (λ f. IsUnplaced f) }
    ensures same { SameFile out.old out.new }
    ensures placed { IsTrue result → IsTrue is_done → IfSome out.new (λ f. IsInPlace f) }
    ensures undone { IsFalse is_done → IfSome out.new (λ f. IsUnplaced f) }
    ensures cut { IsFalse result → IfSome out.new (λ f. IsUnplaced f) }
    ensures there { IsFalse result → IsSome out.new }
{
    match out {
        Some(file) => file.settle(is_done),
        None => true,
    }
}

/// How the writing of the file went, where one is named, for what a person is told of it.
pub(crate) fn writing<'b>(out: &'b Option<FileOutput<'_>>) -> Option<Writing<'b>> {
    match out {
        Some(file) => Some(file.writing()),
        None => None,
    }
}
