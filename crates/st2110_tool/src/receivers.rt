//! The engines of receivers' files, each with its status.
ghost use Rattle.std.specs.Prelude.{◌≡◌, ◌≢◌, ◌⊎◌, ◌∷◌, ◌++◌, [], ◌≤◌, ◌-◌, ◌+◌, length, sum_by, ℕ};
ghost use Rattle.std.specs.List.{zip};
ghost use Rattle.run_outcome.specs.Moments.{WasRead, pair};
ghost use Rattle.st_format.specs.Device.{Failed};
ghost use Rattle.st_format.specs.History.{IsRead};
ghost use Rattle.run_outcome.specs.AtFault.{PrintedAtFault};
ghost use Rattle.run_outcome.specs.Fault.{StatusBlames, counts, failures_in};
ghost use Rattle.receiver_engines.specs.Merging.{JoinsFirst, MergesFiles, PrintsMerged, PrintsMergedPart};
ghost use Rattle.receiver_engines.specs.Merging.{Saves};
ghost use Rattle.run_outcome.specs.States.{SavesPart};
ghost use Rattle.receiver_engines.specs.MergeRefused.{IsMergeRefusal};
ghost use Rattle.receiver_engines.specs.States.{IsStateRefusal};
ghost use Rattle.run_outcome.specs.Refusing.{TellsRefusal};
ghost use Rattle.run_outcome.specs.Telling.{device_line, memory_line};
ghost use Rattle.receiver_engines.specs.Reporting.{Reports, ReportsPart};
ghost use Rattle.receiver_engines.specs.Processing.{PrintsSent, SendsFiles, SendsUnsaidPart};
ghost use Rattle.receiver_engines.specs.Refused.{IsRunRefusal};

use receiver_engines::{Processing, merge, process, report};
use run_outcome::end;
use st_format::{ByteSink, ByteSource};
use std::alloc::Allocator;

/// Merges two receivers that were written as files.
///
/// The receivers of `left` and of `right` are read, and the right one is merged into the left. A
/// line for the frame of each timestamp is printed to `output`, and then the merged receiver is
/// written to `state`.
///
/// The status is 0; or 1 where a file is refused or the two are opened unlike (`merge 1`), 3 where
/// a device failed, and 4 where the allocator refused memory. `faults` is told of it by one line.
/// Nothing is printed or written to `state` where the status is 1 or 4.
pub fn run_merge<A, L, R, K, O, F>(
    alloc: A,
    left: &mut L,
    right: &mut R,
    state: &mut K,
    output: &mut O,
    faults: &mut F,
) -> u8
where
    A: Allocator + Copy,
    L: ByteSource,
    R: ByteSource,
    K: ByteSink,
    O: ByteSink,
    F: ByteSink,
    ensures range { (result ≡ 0) ⊎ (result ≡ 1) ⊎ (result ≡ 3) ⊎ (result ≡ 4) }
    ensures failures { StatusBlames result (counts (L.failures left.old) (L.failures left.new)
        ∷ counts (R.failures right.old) (R.failures right.new)
        ∷ counts (K.failures state.old) (K.failures state.new)
        ∷ counts (O.failures output.old) (O.failures output.new)
        ∷ counts (F.failures faults.old) (F.failures faults.new) ∷ []) }
    ensures saved { result ≡ 0 → Saves (K.took state.old) (K.took state.new) }
    // What was read are the files of two receivers, and what is written is that of the two merged.
    ensures merged { result ≡ 0
        → MergesFiles (IsRead (L.gave left.old) (L.gave left.new) (L.ended left.new))
        (IsRead (R.gave right.old) (R.gave right.new) (R.ended right.new))
        (K.took state.old) (K.took state.new) }
    // A line is printed for each frame of the two merged.
    ensures printed { result ≡ 0
        → PrintsMerged (IsRead (L.gave left.old) (L.gave left.new) (L.ended left.new))
        (IsRead (R.gave right.old) (R.gave right.new) (R.ended right.new))
        (O.took output.old) (O.took output.new) }
    // All of each file was read, up to its end.
    ensures ended { result ≡ 0 → L.ended left.new × R.ended right.new }
    ensures refused { result ≡ 1 → state.new ≡ state.old }
    ensures quiet { result ≡ 1 → output.new ≡ output.old }
    // What is told is the first refusal that speaks against the files.
    ensures told { result ≡ 1
        → TellsRefusal (IsMergeRefusal
        (IsRead (L.gave left.old) (L.gave left.new) (L.ended left.new))
        (IsRead (R.gave right.old) (R.gave right.new) (R.ended right.new)))
        (F.took faults.old) (F.took faults.new) }
    // Unless the status is 0, the merged file isn't all written.
    ensures part { result ≢ 0 → SavesPart
        (JoinsFirst (IsRead (L.gave left.old) (L.gave left.new) (L.ended left.new))
        (IsRead (R.gave right.old) (R.gave right.new) (R.ended right.new)))
        (K.took state.old) (K.took state.new) }
    // Nor is anything printed then but the lines of the merged receiver, or a first part of them,
    // since the output failed.
    ensures shown { result ≢ 0 → PrintsMergedPart O.took O.failures
        (JoinsFirst (IsRead (L.gave left.old) (L.gave left.new) (L.ended left.new))
        (IsRead (R.gave right.old) (R.gave right.new) (R.ended right.new)))
        output.old output.new }
    ensures silent { result ≡ 0 → faults.new ≡ faults.old }
    ensures blamed { result ≡ 3 → Failed (F.failures faults.old) (F.failures faults.new)
        ⊎ (F.took faults.new ≡ F.took faults.old ++ device_line) }
    // Memory is wanted before anything is printed or written.
    ensures wanted { result ≡ 4 → (state.new ≡ state.old) × (output.new ≡ output.old) }
    ensures memory { result ≡ 4 → F.took faults.new ≡ F.took faults.old ++ memory_line }
{
    let outcome = merge(alloc, left, right, state, output);
    end(outcome, faults)
}

/// Prints what a receiver lacks that was written as a file.
///
/// The receiver of `state` is read, and its report is written to `output`.
///
/// The status is 0; or 1 where the file is refused, 3 where a device failed, and 4 where the
/// allocator refused memory. `faults` is told of it by one line. Nothing is written to `output`
/// where the status is 1.
pub fn run_report<A, S, O, F>(alloc: A, state: &mut S, output: &mut O, faults: &mut F) -> u8
where
    A: Allocator + Copy,
    S: ByteSource,
    O: ByteSink,
    F: ByteSink,
    ensures range { (result ≡ 0) ⊎ (result ≡ 1) ⊎ (result ≡ 3) ⊎ (result ≡ 4) }
    ensures failures { StatusBlames result (counts (S.failures state.old) (S.failures state.new)
        ∷ counts (O.failures output.old) (O.failures output.new)
        ∷ counts (F.failures faults.old) (F.failures faults.new) ∷ []) }
    // What was read is the file of a receiver, and what is written is its report.
    ensures reported { result ≡ 0
        → Reports (IsRead (S.gave state.old) (S.gave state.new) (S.ended state.new))
        (O.took output.old) (O.took output.new) }
    // All of the file was read, up to its end.
    ensures ended { result ≡ 0 → S.ended state.new }
    ensures refused { result ≡ 1 → output.new ≡ output.old }
    // What is told is the refusal of the file.
    ensures told { result ≡ 1 → TellsRefusal (IsStateRefusal
        (IsRead (S.gave state.old) (S.gave state.new) (S.ended state.new)))
        (F.took faults.old) (F.took faults.new) }
    // Unless the status is 0, the report isn't all written.
    ensures part { result ≢ 0
        → ReportsPart (IsRead (S.gave state.old) (S.gave state.new) (S.ended state.new))
        (O.took output.old) (O.took output.new) }
    ensures silent { result ≡ 0 → faults.new ≡ faults.old }
    ensures blamed { result ≡ 3 → Failed (F.failures faults.old) (F.failures faults.new)
        ⊎ (F.took faults.new ≡ F.took faults.old ++ device_line) }
    ensures wanted { result ≡ 4 → output.new ≡ output.old }
    ensures memory { result ≡ 4 → F.took faults.new ≡ F.took faults.old ++ memory_line }
{
    let outcome = report(alloc, state, output);
    end(outcome, faults)
}

/// Runs a job on the frames of a timestamp, one of each receiver, writes the capture of the job's
/// picture to `sink`, by path A and with no text, and prints `sent N` to `output`, how many
/// datagrams that are.
///
/// The receivers' files are read in their order, and then the picture of `hold`, where there is
/// one. The first frame takes the held picture's values where it has none, and each other the
/// fill's.
///
/// The status is 0; or 1 where the job's text is none (`process 1`, before any file is read), a
/// file is refused, a receiver's window hasn't the timestamp (`process 2`), the fill's text is none
/// or has a value above the greatest of a frame's depth (`process 3`), the held picture has another
/// format than the first frame (`process 4`), or, in this order, the job is refused (`job`) or
/// there is no such plan (`plan`); 3 where a device failed, and 4 where the allocator refused
/// memory. `faults` is told of it by one line. Where the status is 1 or 4 neither `sink` nor
/// `output` is touched.
pub fn run_process<A, S, K, O, F>(
    alloc: A,
    wanted: Processing<'_>,
    states: &mut [S],
    hold: &mut Option<S>,
    sink: &mut K,
    output: &mut O,
    faults: &mut F,
) -> u8
where
    A: Allocator + Copy,
    S: ByteSource,
    K: ByteSink,
    O: ByteSink,
    F: ByteSink,
    requires payload_type { wanted.stamp.payload_type ≤ 127 }
    ensures range { (result ≡ 0) ⊎ (result ≡ 1) ⊎ (result ≡ 3) ⊎ (result ≡ 4) }
    ensures failures { StatusBlames result (counts (sum_by S.failures states.old)
        (sum_by S.failures states.new)
        ∷ counts (failures_in S.failures hold.old) (failures_in S.failures hold.new)
        ∷ counts (K.failures sink.old) (K.failures sink.new)
        ∷ counts (O.failures output.old) (O.failures output.new)
        ∷ counts (F.failures faults.old) (F.failures faults.new) ∷ []) }
    // What is written is the capture of the datagrams of the job's picture, made of the receivers
    // and the held picture whose files were read; how many they are is printed.
    ensures len { length states.new ≡ length states.old }
    ensures sent { result ≡ 0 → (count : ℕ) × SendsFiles (WasRead S.gave S.ended)
        (zip states.old states.new) (pair hold.old hold.new)
        wanted.entry.job.now wanted.entry.timestamp wanted.entry.fill.now wanted.entry.max_octets
        wanted.entry.stamp (K.took sink.old) (K.took sink.new) count
        × PrintsSent count (O.took output.old) (O.took output.new) }
    ensures refused { result ≡ 1 → sink.new ≡ sink.old }
    ensures quiet { result ≡ 1 → output.new ≡ output.old }
    // What is told is the first refusal that speaks against the words and files.
    ensures told { result ≡ 1
        → TellsRefusal (IsRunRefusal (WasRead S.gave S.ended) (zip states.old states.new)
        (pair hold.old hold.new) wanted.entry)
        (F.took faults.old) (F.took faults.new) }
    // Unless the status is 0, what was written is a first part of such a capture.
    ensures part { result ≢ 0 → SendsUnsaidPart wanted.entry.max_octets wanted.entry.stamp
        (K.took sink.old) (K.took sink.new) }
    // And nothing was printed, or a first part of the line, since the output failed.
    ensures printed { result ≢ 0 → PrintedAtFault O.took O.failures (λ line. (count : ℕ)
        × SendsFiles (WasRead S.gave S.ended) (zip states.old states.new) (pair hold.old hold.new)
        wanted.entry.job.now wanted.entry.timestamp wanted.entry.fill.now wanted.entry.max_octets
        wanted.entry.stamp (K.took sink.old) (K.took sink.new) count × PrintsSent count [] line)
        output.old output.new }
    ensures silent { result ≡ 0 → faults.new ≡ faults.old }
    ensures blamed { result ≡ 3 → Failed (F.failures faults.old) (F.failures faults.new)
        ⊎ (F.took faults.new ≡ F.took faults.old ++ device_line) }
    // Memory is wanted before anything is written or printed.
    ensures wanted { result ≡ 4 → (sink.new ≡ sink.old) × (output.new ≡ output.old) }
    ensures memory { result ≡ 4 → F.took faults.new ≡ F.took faults.old ++ memory_line }
{
    let outcome = process(alloc, wanted, states, hold, sink, output);
    end(outcome, faults)
}
