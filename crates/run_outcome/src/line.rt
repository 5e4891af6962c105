//! Lines of output.
ghost use Rattle.std.specs.Prelude.{◌≡◌, ◌≤◌, ◌<◌, ◌+◌, ◌++◌, ◌∷◌, [], length};
ghost use Rattle.arrayvec.specs.ArrayString.{array_string_len};
ghost use Rattle.run_outcome.specs.Frames.{frame_counts};
ghost use Rattle.run_outcome.specs.Line.{line_text};
ghost use Rattle.run_outcome.specs.declared.line.Line.TheVariants.{Absent, HandedOut, Recorded};
ghost use Rattle.run_outcome.specs.declared.line.Line.TheVariants.{Exported, RefusedCount};

use crate::pieces::{LINE, add_fault};
use arrayvec::ArrayString;
use frame_assembly::Counts;
use path_receiver::{Refusal, SlideFault};
use std::fmt;
use text_line::{add, add_number};

/// What a run says. A timestamp is in 90 kHz ticks.
#[derive(Clone, Copy)]
pub enum Line {
    /// The datagram of this packet number was kept.
    Kept(u32),
    /// The datagram's timestamp isn't in the window.
    Outside,
    /// The datagram was refused for this reason.
    Refused(Refusal),
    /// Nothing is known of the sample.
    Missing,
    /// All offers of the sample are this value.
    Value(u16),
    /// Offers of the sample differ.
    Contested,
    /// There is no such sample: no frame of the timestamp, or no such position.
    Nowhere,
    /// How many samples of the frame of this timestamp are of each kind.
    Frame(u32, Counts),
    /// The frame of this timestamp left the window, with so many samples of each kind.
    Out(u32, Counts),
    /// The window did not move on.
    NotSlid(SlideFault),
    /// The receiver of this number handed out the frame of this timestamp, with so many samples of
    /// each kind.
    HandedOut(u8, u32, Counts),
    /// The frames of the receiver of this number follow.
    Receiver(usize),
    /// Of the numbers that are noted, none came from this one on, so many of them.
    Absent(u32, u32),
    /// How many records of a capture were written.
    Records(u64),
    /// How many records were written of A and of B, and how many packets were left out.
    Recorded(u64, u64, u64),
    /// How many datagrams were exported, and how many were left out.
    Exported(u64, u64),
    /// How many datagrams were sent: taken by a capture or a link.
    Sent(u64),
    /// How many datagrams came, such as were refused or outside the window among them.
    Delivered(u64),
    /// How many datagrams were refused for this reason.
    RefusedCount(Refusal, u64),
    /// How many datagrams had timestamps outside the window.
    OutsideCount(u64),
}

impl fmt::Display for Line {
    ghost use Rattle.std.specs.Prelude.{Some};
    ghost use Rattle.run_outcome.specs.Line.{line_text};

    ghost output = { λ line. Some (line_text line) };

    fn fmt<W: fmt::Write>(&self, f: &mut fmt::Formatter<W>) -> fmt::Result {
        f.write_str(text_of(*self).as_str())
    }
}

/// A line with its end, which always has room.
pub(crate) fn ended(line: Line) -> ArrayString<LINE>
    ensures { result.bytes ≡ line_text line ++ 10 ∷ [] }
{
    let mut text = text_of(line);
    add(&mut text, "\n");
    text
}

/// The text of a line, behind which there is room for its end.
fn text_of(line: Line) -> ArrayString<LINE>
    ensures text { result.bytes ≡ line_text line }
    ensures room { array_string_len result < LINE }
{
    let mut text = ArrayString::<LINE>::new();
    add_line(&mut text, line);
    text
}

/// Adds a line behind no text. There is room for its end then.
fn add_line(text: &mut ArrayString<LINE>, line: Line)
    requires { array_string_len text.old ≡ 0 }
    ensures text { text.new.bytes ≡ text.old.bytes ++ line_text line }
    ensures room { array_string_len text.new < LINE }
{
    match line {
        Line::Kept(number) => add_number(text, "kept ", u64::from(number)),
        Line::Outside => add(text, "outside"),
        Line::Refused(refusal) => add_refusal(text, refusal),
        Line::Missing => add(text, "missing"),
        Line::Value(value) => add_number(text, "value ", u64::from(value)),
        Line::Contested => add(text, "contested"),
        Line::Nowhere => add(text, "none"),
        Line::Frame(timestamp, counts) => add_counts(text, "frame ", timestamp, counts),
        Line::Out(timestamp, counts) => add_counts(text, "out ", timestamp, counts),
        Line::NotSlid(fault) => add_slide_fault(text, fault),
        Line::HandedOut(receiver, timestamp, counts) => {
            add_handed_out(text, receiver, timestamp, counts)
        }
        Line::Receiver(number) => add_number(text, "receiver ", number as u64),
        Line::Absent(first, count) => add_absent(text, first, count),
        Line::Records(count) => add_number(text, "records ", count),
        Line::Recorded(a, b, left_out) => add_recorded(text, a, b, left_out),
        Line::Exported(count, left_out) => add_exported(text, count, left_out),
        Line::Sent(count) => add_number(text, "sent ", count),
        Line::Delivered(count) => add_number(text, "delivered ", count),
        Line::RefusedCount(refusal, count) => add_refused_count(text, refusal, count),
        Line::OutsideCount(count) => add_number(text, "outside ", count),
    }
}

/// Adds a word, a timestamp, and how many samples are of each kind.
fn add_counts(text: &mut ArrayString<LINE>, word: &str, timestamp: u32, counts: Counts)
    requires { array_string_len text.old + length word.now ≤ 32 }
    ensures text { text.new.bytes ≡ text.old.bytes ++ frame_counts word.now timestamp counts }
    ensures room { array_string_len text.new < LINE }
{
    add_number(text, word, u64::from(timestamp));
    add_number(text, " present ", counts.present);
    add_number(text, " missing ", counts.missing);
    add_number(text, " contested ", counts.contested);
}

/// Adds `out`, the number of a receiver, and the timestamp and samples of its frame.
fn add_handed_out(text: &mut ArrayString<LINE>, receiver: u8, timestamp: u32, counts: Counts)
    requires { array_string_len text.old ≡ 0 }
    ensures text { text.new.bytes ≡ text.old.bytes
        ++ line_text (HandedOut receiver timestamp counts) }
    ensures room { array_string_len text.new < LINE }
{
    add_number(text, "out ", u64::from(receiver));
    add_counts(text, " ", timestamp, counts);
}

/// Adds the line of numbers of which none came.
fn add_absent(text: &mut ArrayString<LINE>, first: u32, count: u32)
    requires { array_string_len text.old ≡ 0 }
    ensures text { text.new.bytes ≡ text.old.bytes ++ line_text (Absent first count) }
    ensures room { array_string_len text.new < LINE }
{
    add_number(text, "absent ", u64::from(first));
    add_number(text, " ", u64::from(count));
}

/// Adds the line of what was written of two paths.
fn add_recorded(text: &mut ArrayString<LINE>, a: u64, b: u64, left_out: u64)
    requires { array_string_len text.old ≡ 0 }
    ensures text { text.new.bytes ≡ text.old.bytes ++ line_text (Recorded a b left_out) }
    ensures room { array_string_len text.new < LINE }
{
    add_number(text, "recorded A ", a);
    add_number(text, " B ", b);
    add_number(text, " left out ", left_out);
}

/// Adds how many datagrams were exported, and how many were left out.
fn add_exported(text: &mut ArrayString<LINE>, count: u64, left_out: u64)
    requires { array_string_len text.old ≡ 0 }
    ensures text { text.new.bytes ≡ text.old.bytes ++ line_text (Exported count left_out) }
    ensures room { array_string_len text.new < LINE }
{
    add_number(text, "exported ", count);
    add_number(text, " left out ", left_out);
}

/// Adds the number and the name of a datagram's refusal.
fn add_refusal(text: &mut ArrayString<LINE>, refusal: Refusal)
    requires { array_string_len text.old ≡ 0 }
    ensures text { text.new.bytes ≡ text.old.bytes ++ line_text (Line.Refused refusal) }
    ensures room { array_string_len text.new ≤ 61 }
{
    add_fault(text, "refused ", refusal.number(), refusal.name());
}

/// Adds the line of how many datagrams were refused for a reason.
fn add_refused_count(text: &mut ArrayString<LINE>, refusal: Refusal, count: u64)
    requires { array_string_len text.old ≡ 0 }
    ensures text { text.new.bytes ≡ text.old.bytes ++ line_text (RefusedCount refusal count) }
    ensures room { array_string_len text.new < LINE }
{
    add_refusal(text, refusal);
    add_number(text, " ", count);
}

/// Adds the line of a window that did not move on.
fn add_slide_fault(text: &mut ArrayString<LINE>, fault: SlideFault)
    requires { array_string_len text.old ≡ 0 }
    ensures text { text.new.bytes ≡ text.old.bytes ++ line_text (Line.NotSlid fault) }
    ensures room { array_string_len text.new < LINE }
{
    add_fault(text, "refused slide ", fault.number(), fault.name());
}
