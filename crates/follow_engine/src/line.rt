//! Lines of output.
ghost use Rattle.std.specs.Prelude.{◌≡◌, ◌<◌, ◌++◌, ◌∷◌, [], IfErr, OnErr, OnOk};
ghost use Rattle.arrayvec.specs.ArrayString.{array_string_len};
ghost use Rattle.follow_engine.specs.Line.{ended_line, line_text};
ghost use Rattle.follow_engine.specs.declared.line.FollowLine.TheVariants.{Left, Totals};
ghost use Rattle.run_outcome.specs.Fault.{Accounts, IfRefused, counts};
ghost use Rattle.st_format.specs.Device.{GrowsPart};

use crate::telling::FollowTotals;
use arrayvec::ArrayString;
use frame_assembly::Counts;
use run_outcome::Fault;
use st_format::{ByteSink, write_whole};
use text_line::{add, add_number};

/// Room for any line, in octets: at most five numbers, of at most 20 digits each, and words.
const LINE: usize = 160;

/// What a run says. A timestamp is in 90 kHz ticks.
#[derive(Clone, Copy)]
pub(crate) enum FollowLine {
    /// The frame of this timestamp left, with so many samples of each kind; and how many datagrams
    /// came late since the one before.
    Left(u32, Counts, u64),
    /// The stream is followed anew from this timestamp on.
    Anew(u32),
    /// What became of the stream.
    Totals(FollowTotals),
    /// A window of so many frames would have held the datagrams that came late.
    Wants(usize),
    /// No window would have held all datagrams that came late.
    WantsMore,
}

/// The text of a line with its end, which always has room.
fn text_of(line: FollowLine) -> ArrayString<LINE>
    ensures { result.bytes ≡ ended_line line }
{
    let mut text = ArrayString::<LINE>::new();
    add_line(&mut text, line);
    add(&mut text, "\n");
    text
}

/// Adds a line behind no text. There is room for its end then.
fn add_line(text: &mut ArrayString<LINE>, line: FollowLine)
    requires { array_string_len text.old ≡ 0 }
    ensures text { text.new.bytes ≡ text.old.bytes ++ line_text line }
    ensures room { array_string_len text.new < LINE }
{
    match line {
        FollowLine::Left(timestamp, counts, late) => add_left(text, timestamp, counts, late),
        FollowLine::Anew(timestamp) => add_number(text, "anew ", u64::from(timestamp)),
        FollowLine::Totals(totals) => add_totals(text, totals),
        FollowLine::Wants(frames) => add_number(text, "late wants window ", frames as u64),
        FollowLine::WantsMore => add(text, "late wants more than window 16"),
    }
}

/// Adds the timestamp, the samples of each kind, and how many datagrams came late.
fn add_left(text: &mut ArrayString<LINE>, timestamp: u32, counts: Counts, late: u64)
    requires { array_string_len text.old ≡ 0 }
    ensures text { text.new.bytes ≡ text.old.bytes ++ line_text (Left timestamp counts late) }
    ensures room { array_string_len text.new < LINE }
{
    add_number(text, "frame ", u64::from(timestamp));
    add_number(text, " present ", counts.present);
    add_number(text, " missing ", counts.missing);
    add_number(text, " contested ", counts.contested);
    add_number(text, " late ", late);
}

/// Adds how many frames left, and what became of the datagrams.
fn add_totals(text: &mut ArrayString<LINE>, totals: FollowTotals)
    requires { array_string_len text.old ≡ 0 }
    ensures text { text.new.bytes ≡ text.old.bytes ++ line_text (Totals totals) }
    ensures room { array_string_len text.new < LINE }
{
    add_number(text, "frames ", totals.frames);
    add_number(text, " kept ", totals.kept);
    add_number(text, " late ", totals.late);
    add_number(text, " far ", totals.far);
    add_number(text, " refused ", totals.refused);
}

/// Prints a line and its end by one call, so that lines of several runs into one pipe stay whole.
/// Nothing else than the device fails: no memory is wanted.
pub(crate) fn print<O: ByteSink>(line: FollowLine, output: &mut O) -> Result<(), Fault>
    ensures printed { OnOk result (O.took output.new ≡ O.took output.old ++ ended_line line) }
    ensures part { OnErr result
        (GrowsPart (O.took output.old) (O.took output.new) (ended_line line)) }
    ensures device { IfErr result (λ f. f ≡ Fault.Device) }
    ensures unrefused { IfErr result (λ f. IfRefused f ⊥) }
    ensures failures { Accounts result (counts (O.failures output.old) (O.failures output.new)
        ∷ []) }
{
    let text = text_of(line);
    match write_whole(output, text.as_bytes()) {
        Ok(()) => Ok(()),
        Err(_) => Err(Fault::Device),
    }
}
