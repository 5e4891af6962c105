//! The engines of texts, each with its status.
ghost use Rattle.std.specs.Prelude.{◌≡◌, ◌≢◌, ◌⊎◌, ◌∷◌, ◌++◌, []};
ghost use Rattle.st_format.specs.Device.{Failed};
ghost use Rattle.st_format.specs.History.{GrewFrom};
ghost use Rattle.run_outcome.specs.Fault.{StatusBlames, counts};
ghost use Rattle.run_outcome.specs.Refusing.{TellsRefusal};
ghost use Rattle.run_outcome.specs.Telling.{device_line, memory_line};
ghost use Rattle.script_engines.specs.Described.{DescribesPart, DescribesVideo, IsUndescribed};
ghost use Rattle.script_engines.specs.Reading.{DoesScript, IsRefusedFor};
ghost use Rattle.script_engines.specs.Rehearsed.{IsRefusedScript, Rehearses, RehearsesPart};
ghost use Rattle.script_engines.specs.Script.{GivesAll, GivesScript};
ghost use Rattle.script_engines.specs.Traced.{IsUntraced, Traces, TracesPart, TracesToFault};

use run_outcome::end;
use script_engines::{describe, rehearse, trace};
use st_format::{ByteSink, ByteSource};
use std::alloc::Allocator;

/// Runs the script that the source gives, and answers the exit status.
///
/// The script is read whole; then its lines are followed one by one, and what each says is printed
/// to `output`. At the end a line for the frame of each timestamp of the window is printed, and one
/// for each run of numbers that did not come, where numbers are noted. The status is 0; or 1 where
/// the script, its format, its opening or its count of numbers is refused, 3 where a device failed,
/// and 4 where the allocator refused memory, which `faults` is told by one line.
pub fn run_trace<A, S, O, F>(alloc: A, source: &mut S, output: &mut O, faults: &mut F) -> u8
where
    A: Allocator + Copy,
    S: ByteSource,
    O: ByteSink,
    F: ByteSink,
    ensures range { (result ≡ 0) ⊎ (result ≡ 1) ⊎ (result ≡ 3) ⊎ (result ≡ 4) }
    ensures failures { StatusBlames result (counts (S.failures source.old) (S.failures source.new)
        ∷ counts (O.failures output.old) (O.failures output.new)
        ∷ counts (F.failures faults.old) (F.failures faults.new) ∷ []) }
    ensures whole { result ≡ 0 → GivesScript (S.gave source.old) (S.gave source.new)
        (S.ended source.new) }
    ensures read { result ≡ 1 → GivesAll (S.gave source.old) (S.gave source.new)
        (S.ended source.new) }
    ensures grown { GrewFrom (S.gave source.old) (S.gave source.new) }
    // At status 1 why the script is refused was told by its line: which of its lines is at fault.
    ensures told { result ≡ 1 → TellsRefusal
        (IsRefusedFor IsUntraced (S.gave source.old) (S.gave source.new) (S.ended source.new))
        (F.took faults.old) (F.took faults.new) }
    // Unless it is 0, a first part of that may be printed.
    ensures part { result ≢ 0 → TracesPart (S.gave source.old) (S.gave source.new)
        (S.ended source.new) (O.took output.old) (O.took output.new) }
    // At 1 just the answers of the lines before the one that was told are printed.
    ensures stops { result ≡ 1 → TellsRefusal (IsRefusedFor
        (TracesToFault (O.took output.old) (O.took output.new))
        (S.gave source.old) (S.gave source.new) (S.ended source.new))
        (F.took faults.old) (F.took faults.new) }
    ensures silent { result ≡ 0 → faults.new ≡ faults.old }
    ensures blamed { result ≡ 3 → Failed (F.failures faults.old) (F.failures faults.new)
        ⊎ (F.took faults.new ≡ F.took faults.old ++ device_line) }
    ensures memory { result ≡ 4 → F.took faults.new ≡ F.took faults.old ++ memory_line }
    // At 0 the script's lines were followed, and printed are their answers and what is known at the
    // end.
    ensures traces { result ≡ 0 → DoesScript Traces (S.gave source.old) (S.gave source.new)
        (S.ended source.new) (O.took output.old) (O.took output.new) }
{
    let outcome = trace(alloc, source, output);
    end(outcome, faults)
}

/// Reads the SDP text that the source gives, and writes its canonical fmtp line (RFC 8866; SMPTE ST
/// 2110-20, SDP).
///
/// Answers 0; 1 where the text is refused, with `st2110: sdp N NAME` told to the faults, or is
/// longer than 16,777,216 octets, with `st2110: script 1` (own); 3 exactly where a device failed; 4
/// where memory was wanted.
pub fn run_sdp<A, S, O, F>(alloc: A, source: &mut S, output: &mut O, faults: &mut F) -> u8
where
    A: Allocator + Copy,
    S: ByteSource,
    O: ByteSink,
    F: ByteSink,
    ensures range { (result ≡ 0) ⊎ (result ≡ 1) ⊎ (result ≡ 3) ⊎ (result ≡ 4) }
    ensures failures { StatusBlames result (counts (S.failures source.old) (S.failures source.new)
        ∷ counts (O.failures output.old) (O.failures output.new)
        ∷ counts (F.failures faults.old) (F.failures faults.new) ∷ []) }
    ensures whole { result ≡ 0 → GivesScript (S.gave source.old) (S.gave source.new)
        (S.ended source.new) }
    ensures read { result ≡ 1 → GivesAll (S.gave source.old) (S.gave source.new)
        (S.ended source.new) }
    ensures grown { GrewFrom (S.gave source.old) (S.gave source.new) }
    // At status 1 the first fault of the text was told by its line.
    ensures told { result ≡ 1 → TellsRefusal
        (IsRefusedFor IsUndescribed (S.gave source.old) (S.gave source.new) (S.ended source.new))
        (F.took faults.old) (F.took faults.new) }
    // Unless it is 0, nothing or a first part of that line is printed.
    ensures cut { result ≢ 0 → (O.took output.new ≡ O.took output.old)
        ⊎ DoesScript DescribesPart (S.gave source.old) (S.gave source.new)
        (S.ended source.new) (O.took output.old) (O.took output.new) }
    ensures silent { result ≡ 0 → faults.new ≡ faults.old }
    ensures blamed { result ≡ 3 → Failed (F.failures faults.old) (F.failures faults.new)
        ⊎ (F.took faults.new ≡ F.took faults.old ++ device_line) }
    ensures memory { result ≡ 4 → F.took faults.new ≡ F.took faults.old ++ memory_line }
    // At 0 the canonical line of the text is printed; at 1 nothing is.
    ensures printed { result ≡ 0 → DoesScript DescribesVideo (S.gave source.old) (S.gave source.new)
        (S.ended source.new) (O.took output.old) (O.took output.new) }
    ensures nothing { result ≡ 1 → O.took output.new ≡ O.took output.old }
{
    let outcome = describe(alloc, source, output);
    end(outcome, faults)
}

/// Plays the schedule that the source gives as a script, and answers the exit status.
///
/// The script is read whole; then it is planned and played, and a line is printed to `output` for
/// each frame that was handed out, in order, and then for each receiver its number and a line for
/// the frame of each timestamp of its window. The status is 0; or 1 where the script, its format,
/// its plan or its schedule is refused, 3 where a device failed, and 4 where the allocator refused
/// memory, which `faults` is told by one line.
pub fn run_rehearse<A, S, O, F>(alloc: A, source: &mut S, output: &mut O, faults: &mut F) -> u8
where
    A: Allocator + Copy,
    S: ByteSource,
    O: ByteSink,
    F: ByteSink,
    ensures range { (result ≡ 0) ⊎ (result ≡ 1) ⊎ (result ≡ 3) ⊎ (result ≡ 4) }
    ensures failures { StatusBlames result (counts (S.failures source.old) (S.failures source.new)
        ∷ counts (O.failures output.old) (O.failures output.new)
        ∷ counts (F.failures faults.old) (F.failures faults.new) ∷ []) }
    ensures whole { result ≡ 0 → GivesScript (S.gave source.old) (S.gave source.new)
        (S.ended source.new) }
    ensures read { result ≡ 1 → GivesAll (S.gave source.old) (S.gave source.new)
        (S.ended source.new) }
    ensures grown { GrewFrom (S.gave source.old) (S.gave source.new) }
    // At status 1 why the script is no rehearsal, or isn't played, was told by its line.
    ensures told { result ≡ 1 → TellsRefusal
        (IsRefusedFor IsRefusedScript (S.gave source.old) (S.gave source.new) (S.ended source.new))
        (F.took faults.old) (F.took faults.new) }
    // Unless it is 0, nothing or a first part of that is printed.
    ensures cut { result ≢ 0 → (O.took output.new ≡ O.took output.old)
        ⊎ DoesScript (RehearsesPart A) (S.gave source.old) (S.gave source.new)
        (S.ended source.new) (O.took output.old) (O.took output.new) }
    ensures silent { result ≡ 0 → faults.new ≡ faults.old }
    ensures blamed { result ≡ 3 → Failed (F.failures faults.old) (F.failures faults.new)
        ⊎ (F.took faults.new ≡ F.took faults.old ++ device_line) }
    ensures memory { result ≡ 4 → F.took faults.new ≡ F.took faults.old ++ memory_line }
    // At 0 what the script says is played, and printed; at 1 nothing is printed.
    ensures rehearses { result ≡ 0 → DoesScript (Rehearses A) (S.gave source.old)
        (S.gave source.new) (S.ended source.new) (O.took output.old) (O.took output.new) }
    ensures nothing { result ≡ 1 → O.took output.new ≡ O.took output.old }
{
    let outcome = rehearse(alloc, source, output);
    end(outcome, faults)
}
