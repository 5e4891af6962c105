//! A script: the octets that a source gives, and their lines.
ghost use Rattle.std.specs.Prelude.{◌≡◌, ◌≤◌, ◌<◌, ◌+◌, ◌∷◌, [], length, IfErr, IfNone, IfSome};
ghost use Rattle.std.specs.Prelude.{IfOk, MatchOption};
ghost use Rattle.std.specs.Str.Lines.{lines};
ghost use Rattle.st_format.specs.History.{GrewFrom};
ghost use Rattle.run_outcome.specs.Fault.{Accounts, IfRefused, counts};
ghost use Rattle.run_outcome.specs.LowerFaults.{IsMisformed};
ghost use Rattle.script_engines.specs.Script.{IsCutScript, IsReadFrom, IsWholeLines, line_behind};
ghost use Rattle.script_engines.specs.Script.{numbered_lines};

use crate::line_end::line_end;
use run_outcome::{Fault, Form, MOST_TEXT, read_past};
use st_format::{ByteSource, without_carriage_return};
use std::alloc::Allocator;

/// A script that was read whole, before its first line is followed: so no line takes memory for its
/// text, and the limit is one test.
#[derive(Drop)]
pub(crate) struct Script<A: Allocator> {
    /// Its octets; of a script that passes the limit, the lines before the one in which it does.
    pub octets: Vec<u8, A>,
    /// Whether it passes the limit: then the line behind its last is at fault.
    pub is_cut: bool,
}

/// Reads a source to its end as a script, or up to the limit of one.
pub(crate) fn read_script<A, S>(alloc: A, source: &mut S) -> Result<Script<A>, Fault>
where
    A: Allocator,
    S: ByteSource,
    ensures limit { IfOk result (λ s. length s.octets.items ≤ MOST_TEXT) }
    ensures failures { Accounts result (counts (S.failures source.old) (S.failures source.new)
        ∷ []) }
    ensures unrefused { IfErr result (λ f. IfRefused f ⊥) }
    ensures read { IfOk result (λ s.
        IsReadFrom (S.gave source.old) (S.gave source.new) (S.ended source.new)
        s.octets.items s.is_cut) }
    ensures grown { GrewFrom (S.gave source.old) (S.gave source.new) }
{
    Ok(cut_at_limit(read_past(alloc, source, MOST_TEXT)?))
}

/// The script of these octets, which past the limit is cut at its last whole line.
fn cut_at_limit<A: Allocator>(mut octets: Vec<u8, A>) -> Script<A>
    ensures limit { length result.octets.items ≤ MOST_TEXT }
    ensures cut { IsCutScript octets.items result.octets.items result.is_cut }
{
    if octets.len() <= MOST_TEXT {
        return Script {
            octets,
            is_cut: false,
        };
    }
    let end = whole_lines(&octets[..MOST_TEXT]);
    octets.truncate(end);
    Script {
        octets,
        is_cut: true,
    }
}

/// How many octets the lines of a text have that end by LF: of a script that is cut just these
/// count.
fn whole_lines(text: &[u8]) -> usize
    ensures { IsWholeLines text.now result }
{
    let mut end = text.len();
    while end > 0 && text[end - 1] != b'\n' {
        end -= 1;
    }
    end
}

/// A line of a script that isn't empty.
#[derive(Clone, Copy)]
pub(crate) struct ScriptLine<'a> {
    /// Its number, counted from 1, empty lines counted too.
    pub number: usize,
    /// Its octets, without the LF and a CR before that.
    pub text: &'a [u8],
}

/// The lines of a script that are still to come.
#[derive(Drop)]
pub(crate) struct Lines<'a> {
    rest: &'a [u8],
    passed: usize,
    /// Whether the script goes on behind them, past its limit.
    is_cut: bool,
    ghost counted: { passed + length rest.now ≤ 16777216 },
}

impl<'a> Lines<'a> {
    /// All lines of a text, behind which the script is cut or ends.
    pub fn new(text: &'a [u8], is_cut: bool) -> Lines<'a>
        requires { length text.now ≤ 16777216 }
        ensures rest { result.rest.now ≡ text.now }
        ensures passed { result.passed ≡ 0 }
    {
        Lines {
            rest: text,
            passed: 0,
            is_cut,
        }
    }

    /// The next line that isn't empty.
    pub fn next(&mut self) -> Option<ScriptLine<'a>>
        ensures next { MatchOption result
            (numbered_lines self.old.passed self.old.rest.now ≡ [])
            (λ line. numbered_lines self.old.passed self.old.rest.now
            ≡ (line.number, line.text.now)
            ∷ numbered_lines self.new.passed self.new.rest.now) }
        ensures fewer { IfSome result (λ _. length self.new.rest.now < length self.old.rest.now) }
        ensures end { IfNone result
            (self.new.passed ≡ self.old.passed + length (lines self.old.rest.now)) }
        ensures behind { line_behind self.new.passed self.new.rest.now
            ≡ line_behind self.old.passed self.old.rest.now }
    {
        while let Some((text, rest)) = split_line(self.rest) {
            self.rest = rest;
            self.passed += 1;
            if !text.is_empty() {
                return Some(ScriptLine {
                    number: self.passed,
                    text,
                });
            }
        }
        None
    }

    /// The number of the line that was given last, 0 before the first.
    pub fn last(&self) -> usize
        ensures { result ≡ self.now.passed }
    {
        self.passed
    }

    /// The number of the line behind those that were given: where one is missing, it is at fault.
    pub fn following(&self) -> usize
        ensures { result ≡ self.now.passed + 1 }
    {
        self.passed + 1
    }

    /// The fault of the line behind those that were given, which was to be of a form.
    pub fn wanting(&self, form: Form) -> Fault
        ensures { IsMisformed (self.now.passed + 1) result }
    {
        if self.is_cut {
            Form::End.refused_at(self.following())
        } else {
            form.refused_at(self.following())
        }
    }
}

/// The first line of a text, without its LF and a CR before that, and the text behind it.
fn split_line(text: &[u8]) -> Option<(&[u8], &[u8])>
    ensures cases { MatchOption result (text.now ≡ []) (λ p.
        lines text.now ≡ p.0.now ∷ lines p.1.now) }
    ensures shorter { IfSome result (λ p. length p.1.now < length text.now) }
{
    if text.is_empty() {
        return None;
    }
    let end = line_end(text);
    if end == text.len() {
        return Some((text, &[]));
    }
    Some((without_carriage_return(&text[..end]), &text[end + 1..]))
}
