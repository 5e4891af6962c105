//! Which of some files goes first, and reading them on.
ghost use Rattle.std.specs.Prelude.{◌≡◌, ◌≤◌, ◌<◌, ◌+◌, IfErr, IfSome, OnOk, length};
ghost use Rattle.side_by_side.specs.Going.{first_place, sooner};
ghost use Rattle.side_by_side.specs.Side.{goings};
ghost use Rattle.side_by_side.specs.Sides.{AllSound, AllUnfailed, ReadsAll, StopsAll, begun_each};
ghost use Rattle.side_by_side.specs.Side.{AccountsFor};
ghost use Rattle.side_by_side.specs.Sides.{failures_each};

use crate::going::Going;
use crate::side::Side;
use crate::steering::Steering;
use recording_reader::ReadingFault;
use st_format::ByteSource;
use std::alloc::Allocator;

/// The place of the file that goes first, of those that go alike the first, and when it goes.
pub(crate) fn first_side<A: Allocator, S: ByteSource>(
    sides: &[Side<A, S>],
) -> Option<(usize, Going)>
    ensures first { result ≡ first_place (goings sides.now) }
    ensures within { IfSome result (λ x. x.0 < length sides.now) }
{
    let Some((first, rest)) = sides.split_first() else {
        return None;
    };
    sooner(first.going, first_side(rest), sides.len())
}

/// The sooner of a first one, and of the one that goes first of those behind it, of so many; the
/// first one where they go alike.
fn sooner(first: Going, later: Option<(usize, Going)>, _count: usize) -> Option<(usize, Going)>
    requires { IfSome later (λ x. x.0 + 1 ≤ _count) }
    ensures { result ≡ sooner first later }
{
    match later {
        Some((place, going)) => {
            if first.goes() && !going.is_before(first) {
                Some((0, first))
            } else {
                Some((place + 1, going))
            }
        }
        None => { if first.goes() { Some((0, first)) } else { None } }
    }
}

/// Reads each file on to its next datagram, or to its end, where that isn't read yet.
///
/// # Errors
///
/// The fault of the first of them that comes to one; it stays there, and none behind it is read on.
pub(crate) fn read_all<A: Allocator, S: ByteSource>(
    steering: Steering,
    sides: &mut [Side<A, S>],
) -> Result<(), ReadingFault>
    requires { AllSound steering sides.old }
    ensures len { length sides.new ≡ length sides.old }
    ensures begun { begun_each sides.new ≡ begun_each sides.old }
    ensures read { OnOk result (ReadsAll steering sides.old sides.new) }
    ensures unfailed { OnOk result (AllUnfailed sides.new) }
    ensures fault { IfErr result (λ f. StopsAll steering f sides.old sides.new) }
    ensures device { AllUnfailed sides.old → AccountsFor result
        (failures_each S.failures sides.old) (failures_each S.failures sides.new) }
{
    for place in 0..sides.len() {
        sides[place].read_on(steering)?;
    }
    Ok(())
}
