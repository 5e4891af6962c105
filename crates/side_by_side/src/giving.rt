//! Giving the datagram of the file that goes first.
ghost use Rattle.std.specs.Prelude.{◌≡◌, ◌≤◌, ◌<◌, IfErr, IfOk, OnOk, length};
ghost use Rattle.recording_reader.specs.FileReader.{TellsTurn, octets_at_hand};
ghost use Rattle.recording_reader.specs.Files.{source_fault};
ghost use Rattle.side_by_side.specs.Side.{AccountsFor};
ghost use Rattle.side_by_side.specs.Sides.{AllSound, AllUnfailed, GivesHand, GivesNextSide};
ghost use Rattle.side_by_side.specs.Sides.{StopsAll, begun_each, failures_each, hand_at};

use crate::choosing::{first_side, read_all};
use crate::side::Side;
use crate::steering::Steering;
use media_file::FileFault;
use pcap_file::RecordingFault;
use recording_reader::ReadingFault;
use st_format::{ByteSource, SourceFault, Turn};
use std::alloc::Allocator;

/// Reads the files on, and gives the datagram of the one that goes first: answers the place of that
/// file, whose reader has it at hand still, or none at the end, where none has one.
///
/// # Errors
///
/// The fault of the first file that has one before its next datagram: it ends all of them there.
pub(crate) fn give_next<A: Allocator, S: ByteSource>(
    steering: Steering,
    sides: &mut [Side<A, S>],
) -> Result<Option<usize>, ReadingFault>
    requires sound { AllSound steering sides.old }
    ensures len { length sides.new ≡ length sides.old }
    ensures begun { begun_each sides.new ≡ begun_each sides.old }
    ensures given { IfOk result (λ at. GivesNextSide steering at sides.old sides.new) }
    ensures unfailed { OnOk result (AllUnfailed sides.new) }
    // (none was at a fault before)
    ensures were { OnOk result (AllUnfailed sides.old) }
    ensures fault { IfErr result (λ f. StopsAll steering f sides.old sides.new) }
    ensures device { AllUnfailed sides.old → AccountsFor result
        (failures_each S.failures sides.old) (failures_each S.failures sides.new) }
{
    read_all(steering, sides)?;
    match first_side(sides) {
        Some((place, _)) => {
            give_at(sides, place);
            Ok(Some(place))
        }
        None => Ok(None),
    }
}

/// Gives the datagram that the file of a place has at hand.
fn give_at<A: Allocator, S: ByteSource>(sides: &mut [Side<A, S>], place: usize)
    requires place { place < length sides.old }
    ensures len { length sides.new ≡ length sides.old }
    ensures begun { begun_each sides.new ≡ begun_each sides.old }
    ensures given { GivesHand place sides.old sides.new }
    ensures unfailed { AllUnfailed sides.old → AllUnfailed sides.new }
    ensures failures { failures_each S.failures sides.new ≡ failures_each S.failures sides.old }
{
    sides[place].give();
}

/// The octets of the datagram that the file of a place has at hand; none where there is none.
pub(crate) fn octets_of<A: Allocator, S: ByteSource>(sides: &[Side<A, S>], place: usize) -> &[u8]
    ensures octets { result.now ≡ octets_at_hand (hand_at sides.now place) }
    ensures few { length result.now ≤ 65535 }
{
    match sides.get(place) {
        Some(side) => side.octets(),
        None => &[],
    }
}

/// Tells the datagram that the file of a place has at hand, and puts its octets at the front of
/// `buf`, or tells the end where there is none.
pub(crate) fn tell_at<A: Allocator, S: ByteSource>(
    sides: &[Side<A, S>],
    place: usize,
    buf: &mut [u8],
) -> Turn
    requires { 65535 ≤ length buf.old }
    ensures room { length buf.new ≡ length buf.old }
    ensures told { TellsTurn (hand_at sides.now place) result buf.new }
{
    match sides.get(place) {
        Some(side) => side.tell(buf),
        None => Turn::End,
    }
}

/// A fault as a source of datagrams tells it.
pub(crate) fn told(fault: ReadingFault) -> SourceFault
    ensures { result ≡ source_fault fault }
{
    match fault {
        ReadingFault::Capture(FileFault::Device) => SourceFault::Device,
        ReadingFault::Recording(RecordingFault::Device) => SourceFault::Device,
        ReadingFault::Capture(other) => SourceFault::Content(other.number()),
        ReadingFault::Recording(other) => SourceFault::Content(other.number()),
    }
}
