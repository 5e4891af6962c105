//! The engine of `migrate`.
ghost use Rattle.std.specs.Prelude.{◌≡◌, ◌≤◌, ◌∷◌, [], IfErr, IfOk, OnErr, OnOk, length};
ghost use Rattle.run_outcome.specs.AtFault.{PrintedAtFault};
ghost use Rattle.run_outcome.specs.Fault.{Accounts, IfRefused, counts};
ghost use Rattle.capture_engines.specs.Migrating.{LeavesBy, MovesBy, PrintsMigrated, passed};
ghost use Rattle.capture_engines.specs.MigrateRefused.{IsCaptureRefusal, IsMigrateRefusal};
ghost use Rattle.run_outcome.specs.Refusing.{OfRefusal};
ghost use Rattle.run_outcome.specs.Text.{GivesText};
ghost use Rattle.run_outcome.specs.TextRefusals.{SaysCaptureText};
ghost use Rattle.media_file.specs.Migrated.{MigratedRead};
ghost use Rattle.st_format.specs.History.{IsRead};

use media_file::{MOST_RECORDS, migrate_capture};
use run_outcome::{Fault, Line, Refusal, of_capture, print, read_checked, room};
use st_format::{ByteSink, ByteSource};
use std::alloc::Allocator;

/// Writes a capture of version 01 as one of version 02 with an SDP text, which is read first, and
/// prints `records N` to `output`.
///
/// # Errors
///
/// A refusal where the SDP is longer than 65,535 octets or refused, or the capture is, which has at
/// most 16,777,216 records; and else that a device failed or memory was wanted. Where it is refused
/// nothing is printed.
pub fn migrate<A, D, S, K, O>(
    alloc: A,
    sdp: &mut D,
    source: &mut S,
    sink: &mut K,
    output: &mut O,
) -> Result<(), Fault>
where
    A: Allocator + Copy,
    D: ByteSource,
    S: ByteSource,
    K: ByteSink,
    O: ByteSink,
    // All that the text's source and the capture's gave was read, up to their ends.
    ensures migrated { OnOk result (PrintsMigrated
        (GivesText 65535 (D.gave sdp.old) (D.gave sdp.new) (D.ended sdp.new))
        (S.gave source.old) (S.gave source.new) (S.ended source.new)
        (K.took sink.old) (K.took sink.new) (O.took output.old) (O.took output.new)) }
    // The text describes a video.
    ensures described { OnOk result (SaysCaptureText
        (IsRead (D.gave sdp.old) (D.gave sdp.new) (D.ended sdp.new))) }
    ensures refusal { IfErr result (λ f. OfRefusal f (IsMigrateRefusal
        (IsRead (D.gave sdp.old) (D.gave sdp.new) (D.ended sdp.new))
        (IsRead (S.gave source.old) (S.gave source.new) (S.ended source.new)))) }
    ensures left { IfErr result (λ f. LeavesBy f
        (GivesText 65535 (D.gave sdp.old) (D.gave sdp.new) (D.ended sdp.new))
        (S.ended source.new)
        (passed (S.gave source.old) (S.failures source.old)
        (K.took sink.old) (K.failures sink.old))
        (passed (S.gave source.new) (S.failures source.new)
        (K.took sink.new) (K.failures sink.new))) }
    // Nothing was printed then; or a first part of the line, since the output failed.
    ensures printed { OnErr result (PrintedAtFault O.took O.failures (PrintsMigrated
        (GivesText 65535 (D.gave sdp.old) (D.gave sdp.new) (D.ended sdp.new))
        (S.gave source.old) (S.gave source.new) (S.ended source.new)
        (K.took sink.old) (K.took sink.new) []) output.old output.new) }
    // A refusal comes before anything is printed.
    ensures quiet { IfErr result (λ f. IfRefused f (output.new ≡ output.old)) }
    // So memory is wanted.
    ensures memory { IfErr result (λ f. f ≡ Fault.Memory → output.new ≡ output.old) }
    ensures failures { Accounts result (counts (D.failures sdp.old) (D.failures sdp.new)
        ∷ counts (S.failures source.old) (S.failures source.new)
        ∷ counts (K.failures sink.old) (K.failures sink.new)
        ∷ counts (O.failures output.old) (O.failures output.new) ∷ []) }
{
    let said = read_checked(alloc, sdp, Refusal::MigrateSdp)?;
    let records = move_capture(alloc, source, sink, &said)?;
    print(Line::Records(records), output)
}

/// Writes a capture of version 01 as one of version 02 with this text.
fn move_capture<A: Allocator, S: ByteSource, K: ByteSink>(
    alloc: A,
    source: &mut S,
    sink: &mut K,
    said: &[u8],
) -> Result<u64, Fault>
    requires { length said.now ≤ 65535 }
    ensures migrated { IfOk result (λ n. MigratedRead 16777216 n said.now (S.gave source.old)
        (S.gave source.new) (S.ended source.new) (K.took sink.old) (K.took sink.new)) }
    ensures refusal { IfErr result (λ f. OfRefusal f (IsCaptureRefusal
        (IsRead (S.gave source.old) (S.gave source.new) (S.ended source.new)))) }
    ensures moved { IfErr result (λ f. MovesBy f said.now (S.ended source.new)
        (passed (S.gave source.old) (S.failures source.old)
        (K.took sink.old) (K.failures sink.old))
        (passed (S.gave source.new) (S.failures source.new)
        (K.took sink.new) (K.failures sink.new))) }
    ensures failures { Accounts result (counts (S.failures source.old) (S.failures source.new)
        ∷ counts (K.failures sink.old) (K.failures sink.new) ∷ []) }
{
    let mut buf = room(alloc)?;
    match migrate_capture(source, sink, said, &mut buf, MOST_RECORDS) {
        Ok(count) => Ok(count),
        Err(fault) => Err(of_capture(fault)),
    }
}
