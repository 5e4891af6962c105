//! Files that are taken into one receiver, all or up to a fault.
ghost use Rattle.std.specs.Prelude.{◌≡◌, ◌≢◌, ◌⊎◌, ◌∷◌, ◌++◌, [], ⊤, IfErr, IfOk, IsErr, IsFalse};
ghost use Rattle.std.specs.Prelude.{IsTrue, MatchOption, MatchResult, None, OnErr, OnOk, Some, Err};
ghost use Rattle.std.specs.Prelude.{length, sum_by};
ghost use Rattle.st_format.specs.Device.{GrowsPart};
ghost use Rattle.std.specs.List.{zip};
ghost use Rattle.std.specs.Option.{option_copied};
ghost use Rattle.capture_engines.specs.Counted.{CountsReceived};
ghost use Rattle.capture_engines.specs.Printed.{if_wanted, received_text, tally_text};
ghost use Rattle.capture_engines.specs.Received.{IsFirstFilesRefusal, IsReceivingRefusal};
ghost use Rattle.capture_engines.specs.Received.{SayOpening};
ghost use Rattle.capture_engines.specs.Receiving.{SavesShown, ShowsPart};
ghost use Rattle.capture_engines.specs.Rescued.{IsReceiverOfAny, IsRescue, RescueAccounts, Rescues};
ghost use Rattle.capture_engines.specs.Taking.{ReceivesFiles};
ghost use Rattle.media_file.specs.StateFile.{state_text};
ghost use Rattle.receiver_file.specs.Saved.{IsWritable, kept_of};
ghost use Rattle.run_outcome.specs.Fault.{Accounts, Blames, Failures, IfRefused, counts};
ghost use Rattle.run_outcome.specs.Moments.{WasRead};
ghost use Rattle.run_outcome.specs.Refusing.{OfRefusal};
ghost use Rattle.run_outcome.specs.States.{SavesPart};
ghost use Rattle.run_outcome.specs.declared.fault.Fault.TheVariants.{Device};

use crate::intake::Intake;
use crate::printing::print_tally;
use crate::receiving::{Asked, Wanted, begin, read_opening, take_all};
use crate::reception::Reception;
use crate::seen::Seen;
use flow::Flows;
use path_receiver::Tally;
use run_outcome::{Fault, Line, Refusal, print, print_frames, room, save_state};
use st_format::{ByteSink, ByteSource};
use std::alloc::Allocator;

/// What was taken of files.
#[derive(Drop)]
pub(crate) enum Rescue<A: Allocator> {
    /// Every file was taken to its end.
    Whole(Intake<A>),
    /// What was read up to a fault.
    Part(Intake<A>, Fault),
}

/// Takes the datagrams of files into one receiver, as [`crate::receive`] does, by the SDP text
/// `sdp`, where one is given. A file that begins as a recording of another tool is taken by the
/// flows of its place in `ways`, or refused so; a file of which they say nothing is a capture.
/// Where `is_sound`, what came before a file's fault is printed and saved too, and no file behind
/// that one is read.
///
/// What was seen of each file that was opened is noted at its place in `seen`, where there is one.
/// What a receiver was given is answered by `reception` once the receiver is written: where the run
/// ends well, or where `is_sound` and a file's fault alone ends it.
///
/// # Errors
///
/// As those of [`crate::receive`]; where `is_sound`, a file's fault comes behind what is printed
/// and saved.
pub fn receive_files<A, S, K, O>(
    alloc: A,
    wanted: Wanted<'_>,
    is_sound: bool,
    sdp: Option<&[u8]>,
    files: &mut [S],
    ways: &[Result<Flows, Refusal>],
    seen: &mut [Seen],
    state: &mut K,
    output: &mut O,
    reception: &mut Option<Reception>,
) -> Result<(), Fault>
where
    A: Allocator + Copy,
    S: ByteSource,
    K: ByteSink,
    O: ByteSink,
    requires { reception.old ≡ None }
    ensures saved { OnOk result (SavesShown wanted.entry.tells_refusals
        (O.took output.old) (O.took output.new) (K.took state.old) (K.took state.new)) }
    ensures len { length files.new ≡ length files.old }
    ensures taken { OnOk result (ReceivesFiles wanted.entry.window.now wanted.entry.ssrc.now
        (option_copied sdp.entry) ways.now (WasRead S.gave S.ended) (zip files.old files.new)
        wanted.entry.tells_refusals
        (O.took output.old) (O.took output.new) (K.took state.old) (K.took state.new)) }
    ensures counted { OnOk result (MatchOption reception.new ⊥
        (CountsReceived wanted.entry.window.now wanted.entry.ssrc.now
        (option_copied sdp.entry) ways.now (WasRead S.gave S.ended) (zip files.old files.new))) }
    // Where it ends by a fault behind what it saved, that is what was read before the fault.
    ensures rescued { IfErr result (λ f. MatchOption reception.new ⊤ (λ r. IsTrue is_sound
        × Rescues wanted.entry.window.now wanted.entry.ssrc.now
        (option_copied sdp.entry) ways.now S.gave S.ended f (zip files.old files.new)
        wanted.entry.tells_refusals
        (O.took output.old) (O.took output.new) (K.took state.old) (K.took state.new) r)) }
    // Where nothing is answered and it fails, the receiver isn't all written.
    ensures part { OnErr result (MatchOption reception.new (SavesPart (IsReceiverOfAny is_sound
        wanted.entry.window.now wanted.entry.ssrc.now (option_copied sdp.entry) ways.now
        S.gave S.ended (zip files.old files.new)) (K.took state.old) (K.took state.new))
        (λ _. ⊤)) }
    // Nor are all its lines printed, unless its file failed.
    ensures printed { OnErr result (MatchOption reception.new (ShowsPart O.took O.failures
        wanted.entry.tells_refusals (IsReceiverOfAny is_sound
        wanted.entry.window.now wanted.entry.ssrc.now (option_copied sdp.entry) ways.now
        S.gave S.ended (zip files.old files.new)) output.old output.new) (λ _. ⊤)) }
    ensures refused { IfErr result (λ f. IfRefused f (IsFalse is_sound
        → state.new ≡ state.old)) }
    ensures quiet { IfErr result (λ f. IfRefused f (IsFalse is_sound
        → output.new ≡ output.old)) }
    // Else memory is wanted before anything is printed or written too.
    ensures memory { IfErr result (λ f. f ≡ Fault.Memory → IsFalse is_sound
        → (state.new ≡ state.old) × (output.new ≡ output.old)) }
    // No memory is wanted for words that are refused.
    ensures wanted { IfErr result (λ f. f ≡ Fault.Memory
        → SayOpening wanted.entry.window.now wanted.entry.ssrc.now) }
    ensures refusal { IfErr result (λ f. OfRefusal f (IsReceivingRefusal wanted.entry.window.now
        wanted.entry.ssrc.now (option_copied sdp.entry) ways.now (WasRead S.gave S.ended)
        (zip files.old files.new))) }
    ensures failures { Accounts result (counts (sum_by S.failures files.old)
        (sum_by S.failures files.new)
        ∷ counts (K.failures state.old) (K.failures state.new)
        ∷ counts (O.failures output.old) (O.failures output.new) ∷ []) }
{
    let opening = read_opening(alloc, wanted)?;
    let begun = begin(alloc, &opening, sdp)?;
    let tells = wanted.tells_refusals;
    match rescue_files(alloc, &opening, begun, files, ways, seen)? {
        Rescue::Whole(intake) => put_out(intake, tells, state, output, reception),
        Rescue::Part(intake, fault) if is_sound => {
            put_part(intake, fault, tells, state, output, reception)
        }
        Rescue::Part(_, fault) => Err(fault),
    }
}

/// Prints what a receiver was given and has, and writes its file.
fn put_out<A: Allocator, K: ByteSink, O: ByteSink>(
    intake: Intake<A>,
    tells_refusals: bool,
    state: &mut K,
    output: &mut O,
    reception: &mut Option<Reception>,
) -> Result<(), Fault>
    ensures printed { OnOk result (O.took output.new ≡ O.took output.old
        ++ received_text tells_refusals intake.delivered (tally_text intake.tally)
        intake.receiver) }
    ensures whole { OnOk result
        (K.took state.new ≡ K.took state.old ++ state_text (kept_of intake.receiver)) }
    ensures writable { OnOk result (IsWritable intake.receiver) }
    ensures counted { OnOk result (reception.new
        ≡ Some (record { delivered = intake.delivered; tally = intake.tally })) }
    ensures none { OnErr result (reception.new ≡ reception.old) }
    ensures part { OnErr result (SavesPart (λ r. r ≡ intake.receiver)
        (K.took state.old) (K.took state.new)) }
    ensures shown { OnErr result (ShowsPart O.took O.failures tells_refusals
        (λ r. r ≡ intake.receiver) output.old output.new) }
    ensures refused { IfErr result (λ f. IfRefused f (state.new ≡ state.old)) }
    ensures quiet { IfErr result (λ f. IfRefused f (output.new ≡ output.old)) }
    ensures unrefused { IfErr result (λ f. IfRefused f ⊥) }
    // No memory is asked for.
    ensures device { IfErr result (λ f. f ≡ Device) }
    ensures failures { Accounts result (counts (K.failures state.old) (K.failures state.new)
        ∷ counts (O.failures output.old) (O.failures output.new) ∷ []) }
{
    print_intake(&intake, tells_refusals, output)?;
    save_state(&intake.receiver, state)?;
    *reception = Some(Reception {
        delivered: intake.delivered,
        tally: intake.tally,
    });
    Ok(())
}

/// Prints what a receiver was given up to a fault, and has, writes its file, and ends by the fault;
/// where a device fails then, by that.
fn put_part<A: Allocator, K: ByteSink, O: ByteSink>(
    intake: Intake<A>,
    fault: Fault,
    tells_refusals: bool,
    state: &mut K,
    output: &mut O,
    reception: &mut Option<Reception>,
) -> Result<(), Fault>
    requires { reception.old ≡ None }
    ensures fault { IsErr result }
    // Where all was written, by that fault.
    ensures same { MatchOption reception.new ⊤ (λ _. result ≡ Err fault) }
    ensures printed { MatchOption reception.new ⊤ (λ _. O.took output.new ≡ O.took output.old
        ++ received_text tells_refusals intake.delivered (tally_text intake.tally)
        intake.receiver) }
    ensures whole { MatchOption reception.new ⊤
        (λ _. K.took state.new ≡ K.took state.old ++ state_text (kept_of intake.receiver)) }
    ensures part { MatchOption reception.new (SavesPart (λ r. r ≡ intake.receiver)
        (K.took state.old) (K.took state.new)) (λ _. ⊤) }
    ensures shown { MatchOption reception.new (ShowsPart O.took O.failures tells_refusals
        (λ r. r ≡ intake.receiver) output.old output.new) (λ _. ⊤) }
    ensures counted { MatchOption reception.new ⊤
        (λ r. r ≡ record { delivered = intake.delivered; tally = intake.tally }) }
    ensures refused { IfErr result (λ f. IfRefused f (f ≡ fault)) }
    ensures failures { (captures : Failures) → Blames (captures ∷ []) fault
        → Accounts result (captures ∷ counts (K.failures state.old) (K.failures state.new)
        ∷ counts (O.failures output.old) (O.failures output.new) ∷ []) }
{
    match put_out(intake, tells_refusals, state, output, reception) {
        Ok(()) => Err(fault),
        Err(more) => Err(worse(fault, more)),
    }
}

/// The fault of two by which a run ends: a device's, else the second.
fn worse(fault: Fault, more: Fault) -> Fault
    ensures { ((fault ≡ Device) × (result ≡ Device)) ⊎ ((fault ≢ Device) × (result ≡ more)) }
{
    match fault {
        Fault::Device => fault,
        _ => more,
    }
}

/// Takes the datagrams of each file, one file after the other, up to a fault.
fn rescue_files<A: Allocator + Copy, S: ByteSource>(
    alloc: A,
    opening: &Asked<A>,
    mut begun: Option<Intake<A>>,
    files: &mut [S],
    ways: &[Result<Flows, Refusal>],
    seen: &mut [Seen],
) -> Result<Rescue<A>, Fault>
    ensures len { length files.new ≡ length files.old }
    ensures taken { IfOk result (IsRescue opening.now ways.now S.gave S.ended
        (zip files.old files.new) begun) }
    ensures refusal { IfErr result (λ f. OfRefusal f (IsFirstFilesRefusal opening.now.window.items
        begun ways.now (WasRead S.gave S.ended) (zip files.old files.new))) }
    ensures failures { MatchResult result
        (λ r. RescueAccounts r (counts (sum_by S.failures files.old)
        (sum_by S.failures files.new) ∷ []))
        (Blames (counts (sum_by S.failures files.old) (sum_by S.failures files.new)
        ∷ [])) }
{
    let mut said = room(alloc)?;
    match take_all(alloc, opening, &mut begun, files, ways, seen, &mut said) {
        Ok(()) => match begun {
            Some(intake) => Ok(Rescue::Whole(intake)),
            None => Err(Fault::Refused(Refusal::ReceiveNoSdp)),
        },
        Err(fault) => match begun {
            Some(intake) => Ok(Rescue::Part(intake, fault)),
            None => Err(fault),
        },
    }
}

/// Prints what was delivered, and what is then known.
fn print_intake<A: Allocator, O: ByteSink>(
    intake: &Intake<A>,
    tells_refusals: bool,
    output: &mut O,
) -> Result<(), Fault>
    ensures printed { OnOk result (O.took output.new ≡ O.took output.old
        ++ received_text tells_refusals intake.now.delivered (tally_text intake.now.tally)
        intake.now.receiver) }
    ensures cut { OnErr result (GrowsPart (O.took output.old) (O.took output.new)
        (received_text tells_refusals intake.now.delivered (tally_text intake.now.tally)
        intake.now.receiver)) }
    ensures unrefused { IfErr result (λ f. IfRefused f ⊥) }
    ensures device { IfErr result (λ f. f ≡ Device) }
    ensures failures { Accounts result (counts (O.failures output.old) (O.failures output.new)
        ∷ []) }
{
    print(Line::Delivered(intake.delivered), output)?;
    print_wanted(&intake.tally, tells_refusals, output)?;
    print_frames(&intake.receiver, output)
}

/// Prints a tally's lines, or nothing: refusals are told only where that is asked for.
fn print_wanted<O: ByteSink>(tally: &Tally, is_wanted: bool, output: &mut O) -> Result<(), Fault>
    ensures printed { OnOk result
        (O.took output.new ≡ O.took output.old ++ if_wanted is_wanted (tally_text tally.now)) }
    ensures cut { OnErr result (GrowsPart (O.took output.old) (O.took output.new)
        (if_wanted is_wanted (tally_text tally.now))) }
    ensures unrefused { IfErr result (λ f. IfRefused f ⊥) }
    ensures device { IfErr result (λ f. f ≡ Device) }
    ensures failures { Accounts result (counts (O.failures output.old) (O.failures output.new)
        ∷ []) }
{
    if !is_wanted {
        return Ok(());
    }
    print_tally(tally, output)
}
