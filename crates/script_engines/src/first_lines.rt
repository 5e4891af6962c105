//! The lines that a script begins with.
ghost use Rattle.std.specs.Prelude.{◌≡◌, ◌∷◌, [], ℕ, Err, IfErr, IfOk, Ok};
ghost use Rattle.st_format.specs.declared.format.FormatFault.{FormatFault};
ghost use Rattle.st_format.specs.Fields.{fields_of};
ghost use Rattle.run_outcome.specs.Fault.{Accounts};
ghost use Rattle.run_outcome.specs.LowerFaults.{IsMisformed, of_line};
ghost use Rattle.run_outcome.specs.declared.script_line.LineFault.TheVariants as fault;
ghost use Rattle.script_engines.specs.FirstLines.{IsFaultyFormat, ReadsFormat, end_of, lines_left};

use crate::line::read_format_line;
use crate::script::{Lines, ScriptLine};
use run_outcome::{Fault, Form, LineFault};
use st_format::Format;

/// The next line of those that a script needs, which is to be of a form; where there is none, the
/// line behind its last is at fault.
pub(crate) fn next_line<'a>(lines: &mut Lines<'a>, form: Form) -> Result<ScriptLine<'a>, Fault>
    ensures next { IfOk result (λ line.
        lines_left lines.old ≡ (line.number, line.text.now) ∷ lines_left lines.new) }
    ensures none { IfErr result (λ fault.
        IsMisformed (end_of lines.old) fault × (lines_left lines.old ≡ [])) }
    ensures end { end_of lines.new ≡ end_of lines.old }
    ensures failures { Accounts result [] }
{
    match lines.next() {
        Some(line) => Ok(line),
        None => Err(lines.wanting(form)),
    }
}

/// The format that the next line says: just that one.
pub(crate) fn read_format(lines: &mut Lines<'_>) -> Result<Format, Fault>
    ensures format { IfOk result (λ format.
        ReadsFormat (lines_left lines.old) (lines_left lines.new) (Ok (fields_of format))) }
    ensures none { (number : ℕ) (why : FormatFault)
        → result ≡ Err (of_line number (fault.Format why))
        → ReadsFormat (lines_left lines.old) (lines_left lines.new) (Err why) }
    ensures fault { IfErr result (λ fault.
        IsFaultyFormat (lines_left lines.old) (end_of lines.old) fault) }
    ensures end { end_of lines.new ≡ end_of lines.old }
    ensures failures { Accounts result [] }
{
    let line = next_line(lines, Form::Format)?;
    let Some(said) = read_format_line(line.text) else {
        return Err(Form::Format.refused_at(line.number));
    };
    match Format::new(
        said.sampling,
        said.depth,
        said.width,
        said.height,
        said.n,
        said.d,
    ) {
        Ok(format) => Ok(format),
        Err(fault) => Err(LineFault::Format(fault).refused_at(line.number)),
    }
}
