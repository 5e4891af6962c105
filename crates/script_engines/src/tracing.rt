//! The engine of `trace`.
ghost use Rattle.std.specs.Prelude.{◌≡◌, ◌≤◌, ◌<◌, ◌+◌, ◌↔◌, ◌⊎◌, ◌∷◌, ◌++◌, [], ℕ, Bool};
ghost use Rattle.std.specs.Prelude.{None, false, length, Err, IfErr, IfOk, OnErr, OnOk};
ghost use Rattle.path_receiver.specs.Frames.{Holds};
ghost use Rattle.path_receiver.specs.Opening.{IsWindow};
ghost use Rattle.st_format.specs.History.{GrewFrom};
ghost use Rattle.script_engines.specs.FirstLines.{ReadsOpening, end_of, lines_left};
ghost use Rattle.run_outcome.specs.Fault.{Accounts, IfRefused, counts};
ghost use Rattle.run_outcome.specs.LowerFaults.{EndsMisformed};
ghost use Rattle.run_outcome.specs.Refusing.{OfRefusal};
ghost use Rattle.script_engines.specs.Reading.{DoesScript, IsRefusedFor, ReadsScript};
ghost use Rattle.script_engines.specs.Session.{IsAtFault};
ghost use Rattle.script_engines.specs.Traced.{Answers, AnswersSome, AnswersToFault, FollowsLine};
ghost use Rattle.script_engines.specs.Traced.{IsAnswered, IsFaultyOpening, IsFaultyStart};
ghost use Rattle.script_engines.specs.Traced.{IsPartAnswered, IsUnfollowed, IsUntraced, OpensBy};
ghost use Rattle.script_engines.specs.Traced.{PlaysLines, PrintsPart, Traces, TracesPart};
ghost use Rattle.script_engines.specs.Traced.{TracesSome, TracesToFault, absent_lines};

use crate::first_lines::{next_line, read_format};
use crate::line::{TraceLine, read_octets, read_open_line, read_trace_line, read_window};
use crate::script::{Lines, Script, ScriptLine, read_script};
use crate::session::Session;
use crate::wanted_form::traced_form;
use path_receiver::{Receiver, SeqMap};
use run_outcome::{Fault, Form, Line, LineFault, print, print_frames, room};
use st_format::{ByteSink, ByteSource, Format};
use std::alloc::Allocator;

/// Runs the script that the source gives.
///
/// The script is read whole; then its lines are followed one by one, and what each says is printed
/// to `output`. At the end a line for the frame of each timestamp of the window is printed, and one
/// for each run of numbers that did not come, where numbers are noted.
///
/// # Errors
///
/// A refusal where the script, its format, its opening or its count of numbers is refused; and else
/// that a device failed or memory was wanted.
pub fn trace<A, S, O>(alloc: A, source: &mut S, output: &mut O) -> Result<(), Fault>
where
    A: Allocator + Copy,
    S: ByteSource,
    O: ByteSink,
    ensures failures { Accounts result (counts (S.failures source.old) (S.failures source.new)
        ∷ counts (O.failures output.old) (O.failures output.new) ∷ []) }
    ensures read { ReadsScript result (S.gave source.old) (S.gave source.new) (S.ended source.new) }
    ensures grown { GrewFrom (S.gave source.old) (S.gave source.new) }
    ensures refusal { IfErr result (λ f. OfRefusal f (IsRefusedFor IsUntraced
        (S.gave source.old) (S.gave source.new) (S.ended source.new))) }
    // Where it is refused just the answers of the lines before the one at fault were printed.
    ensures stops { IfErr result (λ f. OfRefusal f (IsRefusedFor
        (TracesToFault (O.took output.old) (O.took output.new))
        (S.gave source.old) (S.gave source.new) (S.ended source.new))) }
    ensures traces { OnOk result (DoesScript Traces (S.gave source.old) (S.gave source.new)
        (S.ended source.new) (O.took output.old) (O.took output.new)) }
    ensures part { OnErr result (TracesPart (S.gave source.old) (S.gave source.new)
        (S.ended source.new) (O.took output.old) (O.took output.new)) }
{
    let script = read_script(alloc, source)?;
    play(alloc, &script, output)
}

/// Opens a receiver, follows the lines behind, and prints what is known at the end.
fn play<A: Allocator + Copy, O: ByteSink>(
    alloc: A,
    script: &Script<A>,
    output: &mut O,
) -> Result<(), Fault>
    requires { length script.now.octets.items ≤ 16777216 }
    ensures failures { Accounts result (counts (O.failures output.old) (O.failures output.new)
        ∷ []) }
    ensures whole { OnOk result (script.now.is_cut ≡ false) }
    ensures stops { IfErr result (λ f. OfRefusal f (λ r. TracesToFault (O.took output.old)
        (O.took output.new) script.now.octets.items script.now.is_cut (Fault.Refused r))) }
    ensures traces { OnOk result
        (Traces script.now.octets.items (O.took output.old) (O.took output.new)) }
    ensures part { OnErr result ((O.took output.new ≡ O.took output.old)
        ⊎ TracesSome script.now.octets.items (O.took output.old) (O.took output.new)) }
{
    let mut lines = Lines::new(&script.octets, script.is_cut);
    let mut session = open_session(alloc, &mut lines)?;
    play_to_end(alloc, script.is_cut, &mut lines, &mut session, output)
}

/// Opens a receiver of the format of the first line, and begins a session with it.
fn open_session<A: Allocator + Copy>(alloc: A, lines: &mut Lines<'_>) -> Result<Session<A>, Fault>
    ensures failures { Accounts result [] }
    ensures refusal { IfErr result (λ f. OfRefusal f (λ r.
        IsFaultyStart (lines_left lines.old) (end_of lines.old) (Fault.Refused r))) }
    ensures end { end_of lines.new ≡ end_of lines.old }
    ensures opens { IfOk result (λ session.
        OpensBy (lines_left lines.old) (lines_left lines.new) session.receiver) }
    ensures numbers { IfOk result (λ session. session.numbers ≡ None) }
{
    let format = read_format(lines)?;
    let receiver = open_receiver(alloc, format, lines)?;
    Ok(Session::new(receiver))
}

/// Follows the lines, of which none may be missing, and prints what is known behind the last.
fn play_to_end<A: Allocator + Copy, O: ByteSink>(
    alloc: A,
    is_cut: bool,
    lines: &mut Lines<'_>,
    session: &mut Session<A>,
    output: &mut O,
) -> Result<(), Fault>
    ensures failures { Accounts result (counts (O.failures output.old) (O.failures output.new)
        ∷ []) }
    ensures whole { OnOk result (is_cut ≡ false) }
    ensures stops { IfErr result (λ f. OfRefusal f (λ r. AnswersToFault (lines_left lines.old)
        session.old.receiver session.old.numbers is_cut (end_of lines.old) (Fault.Refused r)
        (O.took output.old) (O.took output.new))) }
    ensures plays { OnOk result (PlaysLines (lines_left lines.old) session.old.receiver
        session.old.numbers (O.took output.old) (O.took output.new)) }
    ensures part { OnErr result (AnswersSome (lines_left lines.old) session.old.receiver
        session.old.numbers (O.took output.old) (O.took output.new)) }
{
    play_lines(alloc, lines, session, output)?;
    if is_cut {
        return Err(Form::End.refused_at(lines.following()));
    }
    print_frames(&session.receiver, output)?;
    print_absent(alloc, &session.numbers, output)
}

/// Opens a receiver of a format as the next line says: for just its payload type, source and
/// window.
fn open_receiver<A: Allocator + Copy>(
    alloc: A,
    format: Format,
    lines: &mut Lines<'_>,
) -> Result<Receiver<A>, Fault>
    ensures opening { IfOk result (λ receiver.
        ReadsOpening (lines_left lines.old) (lines_left lines.new) format receiver.opening) }
    ensures holds { IfOk result (λ receiver. Holds receiver []) }
    ensures window { IfOk result (λ receiver. IsWindow receiver.opening.window) }
    ensures failures { Accounts result [] }
    ensures refusal { IfErr result (λ f. OfRefusal f (λ r.
        IsFaultyOpening format (lines_left lines.old) (end_of lines.old) (Fault.Refused r))) }
    ensures end { end_of lines.new ≡ end_of lines.old }
{
    let line = next_line(lines, Form::Open)?;
    let Some(said) = read_open_line(line.text) else {
        return Err(Form::Open.refused_at(line.number));
    };
    let Some(window) = read_window(alloc, said.window)? else {
        return Err(Form::Open.refused_at(line.number));
    };
    match Receiver::open(alloc, format, said.payload_type, said.ssrc, &window) {
        Ok(receiver) => Ok(receiver),
        Err(fault) => Err(LineFault::Open(fault).refused_at(line.number)),
    }
}

/// Follows the lines to the last, each of which prints what it says.
fn play_lines<A: Allocator + Copy, O: ByteSink>(
    alloc: A,
    lines: &mut Lines<'_>,
    session: &mut Session<A>,
    output: &mut O,
) -> Result<(), Fault>
    ensures failures { Accounts result (counts (O.failures output.old) (O.failures output.new)
        ∷ []) }
    // Whatever is behind the last line, it isn't come to.
    ensures stops { IfErr result (λ f. OfRefusal f (λ r. (is_cut : Bool)
        → AnswersToFault (lines_left lines.old) session.old.receiver session.old.numbers is_cut
        (end_of lines.old) (Fault.Refused r) (O.took output.old) (O.took output.new))) }
    ensures end { OnOk result (lines.new.passed + 1 ≡ end_of lines.old) }
    ensures answers { OnOk result (Answers (lines_left lines.old) session.old.receiver
        session.new.receiver session.old.numbers session.new.numbers
        (O.took output.old) (O.took output.new)) }
    ensures part { OnErr result (AnswersSome (lines_left lines.old) session.old.receiver
        session.old.numbers (O.took output.old) (O.took output.new)) }
{
    let mut octets = room(alloc)?;
    while let Some(line) = lines.next() {
        play_line(alloc, line, session, &mut octets, output)?;
    }
    Ok(())
}

/// Follows a line, and prints what it says.
fn play_line<A: Allocator + Copy, O: ByteSink>(
    alloc: A,
    line: ScriptLine<'_>,
    session: &mut Session<A>,
    octets: &mut [u8],
    output: &mut O,
) -> Result<(), Fault>
    requires { length octets.old ≡ 65535 }
    ensures failures { Accounts result (counts (O.failures output.old) (O.failures output.new)
        ∷ []) }
    // A line that isn't followed prints nothing.
    ensures stops { IfErr result (λ f. OfRefusal f (λ r. IsUnfollowed
        (line.entry.number, line.entry.text.now) session.old.numbers (Fault.Refused r)
        × (O.took output.new ≡ O.took output.old))) }
    ensures room { length octets.new ≡ length octets.old }
    ensures answered { OnOk result (IsAnswered line.entry.text.now session.old.receiver
        session.new.receiver session.old.numbers session.new.numbers
        (O.took output.old) (O.took output.new)) }
    ensures part { OnErr result ((O.took output.new ≡ O.took output.old)
        ⊎ IsPartAnswered line.entry.text.now session.old.receiver session.old.numbers
        (O.took output.old) (O.took output.new)) }
{
    match answer_to(alloc, line, session, octets)? {
        Some(answer) => print(answer, output),
        None => Ok(()),
    }
}

/// Follows a line, and tells what is to be printed, if anything.
fn answer_to<A: Allocator + Copy>(
    alloc: A,
    line: ScriptLine<'_>,
    session: &mut Session<A>,
    octets: &mut [u8],
) -> Result<Option<Line>, Fault>
    requires { length octets.old ≡ 65535 }
    ensures failures { Accounts result [] }
    ensures follows { IfOk result (λ answer. FollowsLine line.entry.text.now
        session.old.receiver session.new.receiver session.old.numbers session.new.numbers answer) }
    ensures script { (number : ℕ) → EndsMisformed result number
        ↔ ((number ≡ line.entry.number)
        × IsAtFault line.entry.text.now (length octets.old) session.old.numbers) }
    ensures refusal { IfErr result (λ f. OfRefusal f (λ r. IsUnfollowed
        (line.entry.number, line.entry.text.now) session.old.numbers (Fault.Refused r))) }
    ensures room { length octets.new ≡ length octets.old }
{
    let Some(said) = read_trace_line(line.text) else {
        return Err(traced_form(line.text).refused_at(line.number));
    };
    Ok(match said {
        TraceLine::Datagram(path, digits) => match read_octets(digits, octets) {
            Some(n) => Some(session.take(path, &octets[..n])),
            None => return Err(Form::Datagram.refused_at(line.number)),
        },
        TraceLine::Slide(next) => Some(session.slide(alloc, next)?),
        TraceLine::Numbers(first, count) => {
            match session.open_numbers(alloc, line.number, first, count) {
                Ok(()) => None,
                Err(fault) => return Err(fault),
            }
        }
        TraceLine::Cell(place) => Some(session.cell(place)),
    })
}

/// Prints the runs of numbers that did not come; nothing without a line `numbers`.
fn print_absent<A: Allocator + Copy, O: ByteSink>(
    alloc: A,
    numbers: &Option<SeqMap<A>>,
    output: &mut O,
) -> Result<(), Fault>
    ensures failures { Accounts result (counts (O.failures output.old) (O.failures output.new)
        ∷ []) }
    ensures unrefused { IfErr result (λ f. IfRefused f ⊥) }
    ensures printed { OnOk result
        (O.took output.new ≡ O.took output.old ++ absent_lines numbers.now) }
    ensures part { OnErr result
        (PrintsPart (absent_lines numbers.now) (O.took output.old) (O.took output.new)) }
{
    let Some(numbers) = numbers else {
        return Ok(());
    };
    for (first, count) in numbers.missing_runs(alloc)? {
        print(Line::Absent(first, count), output)?;
    }
    Ok(())
}
