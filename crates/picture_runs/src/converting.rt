//! `convert` over the devices of this machine.
ghost use Rattle.std.specs.Prelude.{◌≡◌, ◌∷◌, ⊤, [], IfErr, IsFalse, OnOk};
ghost use Rattle.convert_engine.specs.Converting.{Converts, IsConvertRefusal};
ghost use Rattle.command_end.specs.InTurn.{IsInTurn};
ghost use Rattle.devices.specs.Passed.{FileRead, HasNoPart, IsInPlace, IsUnplaced, LeavesNoPart};
ghost use Rattle.devices.specs.Passed.{file_failures, file_gave, file_took, writing_failures};
ghost use Rattle.devices.specs.Passed.{written_name};
ghost use Rattle.run_outcome.specs.Fault.{Accounts, IfRefused, counts};
ghost use Rattle.run_outcome.specs.Refusing.{OfRefusal};
ghost use Rattle.run_outcome.specs.declared.refusal.Writer.TheVariants.{Convert};
ghost use Rattle.picture_runs.specs.Conversions.{IsConversionOf, read_by};

use crate::asked::form_of;
use command_end::{Command, Devices, Hints, Ran, find_output};
use command_line::ConvertWords;
use convert_engine::{Conversion, InputForm};
use devices::{FileOutput, FileSource, OutputSink, Rest};
use form_files::Form;
use run_outcome::{Fault, Writer};
use st_format::Rate;

/// Writes a picture in another form.
#[derive(Drop)]
pub struct ConvertCommand<'a> {
    rt: &'a HostRuntime,
    pub asked: Conversion,
    pub input: FileSource<'a>,
    pub out: FileOutput<'a>,
    /// Whether that is the file that is read.
    pub is_input: bool,
}

impl<'a> ConvertCommand<'a> {
    /// The command of these words, of which nothing is done yet. The rate is that which the words
    /// say, and counts of a pixmap.
    pub fn new(rt: &'a HostRuntime, words: &ConvertWords<'a>, rate: Rate) -> Self
        ensures new { ⟦<ConvertCommand<'a> as Command>⟧.is_new result }
        ensures asked { IsConversionOf words.now rate result.asked }
        ensures out { written_name result.out ≡ words.now.out.now }
    {
        let input = FileSource::given(rt, words.input);
        let out = FileOutput::new(rt, words.out, Rest::Goes);
        let is_input = input.is(out.identity());
        ConvertCommand {
            rt,
            asked: conversion(words, rate),
            input,
            out,
            is_input,
        }
    }
}

/// What `convert` is asked for, beside its files.
fn conversion(words: &ConvertWords<'_>, rate: Rate) -> Conversion
    ensures { IsConversionOf words.now rate result }
{
    let read = form_of(words.from, words.input);
    let form = form_of(words.form, words.out);
    Conversion {
        input: input_form(read, words.place, rate),
        form,
    }
}

/// How a file of a form is read: of a stream the picture of this place, of a pixmap one of this
/// rate. Packed pgroups alone say no format, so a file of them is read as a picture's own.
fn input_form(form: Form, place: u64, rate: Rate) -> InputForm
    ensures { result ≡ read_by form place rate }
{
    match form {
        Form::Picture | Form::Raw => InputForm::Picture,
        Form::Y4m => InputForm::Y4m(place),
        Form::Pixmap => InputForm::Pixmap(rate),
    }
}

/// Looks at the place of the file that is to be written, before anything is read, and converts.
fn convert(
    rt: &HostRuntime,
    asked: Conversion,
    input: &mut FileSource<'_>,
    out: &mut FileOutput<'_>,
    is_input: bool,
) -> Result<(), Fault>
    requires unplaced { IsUnplaced out.old }
    ensures converted { OnOk result (Converts asked (FileRead input.old input.new)
        (file_took out.old) (file_took out.new)) }
    ensures unplaced { IsUnplaced out.new }
    ensures rest { LeavesNoPart out.old → LeavesNoPart out.new }
    ensures apart { OnOk result (IsFalse is_input) }
    ensures refusal { IfErr result (λ f. OfRefusal f (IsInTurn Convert is_input ⊤ (λ _. ⊥)
        (IsConvertRefusal asked (FileRead input.old input.new)))) }
    ensures quiet { IfErr result (λ f. IfRefused f (file_took out.new ≡ file_took out.old)) }
    ensures owed { Accounts result (counts (file_failures input.old) (file_failures input.new)
        ∷ counts (writing_failures out.old) (writing_failures out.new) ∷ []) }
{
    find_output(out, is_input, Writer::Convert)?;
    convert_engine::convert(rt.alloc(), asked, input, &mut out.sink)
}

impl<'a> Command for ConvertCommand<'a> {
    ghost is_new = { λ c. (file_gave c.input ≡ []) × (file_took c.out ≡ []) × IsUnplaced c.out
        × LeavesNoPart c.out };

    // What is written is the picture that was read, in the form that is asked for.
    ghost does = { λ old new. Converts old.asked (FileRead old.input new.input)
        (file_took old.out) (file_took new.out) };

    // Then nothing is written.
    ghost is_refused = { λ old new r. IsInTurn Convert old.is_input ⊤ (λ _. ⊥)
        (IsConvertRefusal old.asked (FileRead old.input new.input)) r
        × (file_took new.out ≡ file_took old.out) };

    ghost is_placed = { λ c. IsInPlace c.out × IsFalse c.is_input };

    ghost is_unplaced = { λ c. IsUnplaced c.out × HasNoPart c.out };

    ghost owes = { λ old new outcome. Accounts outcome
        (counts (file_failures old.input) (file_failures new.input)
        ∷ counts (writing_failures old.out) (writing_failures new.out) ∷ []) };

    fn run(&mut self) -> Ran {
        let outcome = convert(
            self.rt,
            self.asked,
            &mut self.input,
            &mut self.out,
            self.is_input,
        );
        Ran {
            outcome,
            is_whole: self.out.settle(outcome.is_ok()),
        }
    }

    fn devices(&self) -> Devices<'_> {
        Devices {
            sdp: None,
            read: self.input.begun(),
            written: Some(self.out.writing()),
            output: OutputSink::new(self.rt.stdout()).writing(),
            kept: None,
            hints: Hints::none(),
        }
    }
}
