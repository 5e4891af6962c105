//! Following the datagrams of files that are read side by side.
ghost use Rattle.std.specs.Prelude.{◌≡◌, ◌∷◌, [], IfErr, OnErr, OnOk, length};
ghost use Rattle.follow_engine.specs.Events.{events_in};
ghost use Rattle.follow_engine.specs.Refused.{StopsFollowing};
ghost use Rattle.follow_engine.specs.Running.{IsSoundRun, TellsEvents, TellsSome, running_of};
ghost use Rattle.follow_engine.specs.Sides.{FollowsSides};
ghost use Rattle.path_receiver.specs.Took.{datagrams_since};
ghost use Rattle.run_outcome.specs.Fault.{Accounts, IfRefused, counts};
ghost use Rattle.run_outcome.specs.Refusing.{OfRefusal};
ghost use Rattle.side_by_side.specs.Sides.{AllUnfailed, begun_each, failures_each};

use crate::pictures::PictureSink;
use crate::running::Run;
use media_file::FileFault;
use run_outcome::{Fault, of_capture, of_reading};
use side_by_side::SideBySide;
use st_format::{ByteSink, ByteSource};
use std::alloc::Allocator;

/// Takes all datagrams of files, in the order in which they go side by side, each where its reader
/// has it: what leaves is shown and told. What is in at the end stays in.
///
/// # Errors
///
/// A refusal where a file is at fault, behind what happened before the fault; and else that a
/// device failed.
pub(crate) fn follow_sides<A: Allocator + Copy, S: ByteSource, P: PictureSink, O: ByteSink>(
    source: &mut SideBySide<A, S>,
    run: &mut Run<A>,
    pictures: &mut P,
    output: &mut O,
) -> Result<(), Fault>
    requires run { IsSoundRun run.old }
    requires unfailed { AllUnfailed source.old.sides }
    ensures eager { run.new.is_eager ≡ run.old.is_eager }
    ensures steering { source.new.steering ≡ source.old.steering }
    ensures begun { begun_each source.new.sides ≡ begun_each source.old.sides }
    ensures run { OnOk result (IsSoundRun run.new) }
    ensures followed { OnOk result (FollowsSides P.takes source.old source.new run.old run.new
        pictures.old pictures.new (O.took output.old) (O.took output.new)) }
    ensures stopped { IfErr result (λ f. OfRefusal f (StopsFollowing
        (length (datagrams_since source.old.came source.new.came)) source.new.sides)) }
    // What came before a file's fault is told whole; and where a device failed a first part of it.
    ensures before { IfErr result (λ f. IfRefused f (TellsEvents P.takes pictures.old pictures.new
        (O.took output.old) (O.took output.new) (events_in run.old.is_eager (running_of run.old)
        (datagrams_since source.old.came source.new.came)))) }
    ensures part { OnErr result (TellsSome P.takes P.fails pictures.old pictures.new
        (O.took output.old) (O.took output.new) (events_in run.old.is_eager (running_of run.old)
        (datagrams_since source.old.came source.new.came))) }
    ensures failures { Accounts result (counts (failures_each S.failures source.old.sides)
        (failures_each S.failures source.new.sides)
        ∷ counts (P.failures pictures.old) (P.failures pictures.new)
        ∷ counts (O.failures output.old) (O.failures output.new) ∷ []) }
{
    for _ in 0..u64::MAX {
        match source.advance() {
            Ok(Some(place)) => run.take(source.octets_at(place), pictures, output)?,
            Ok(None) => return Ok(()),
            Err(fault) => return Err(of_reading(fault)),
        }
    }
    Err(of_capture(FileFault::TooManyRecords))
}
