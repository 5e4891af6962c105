//! A receiver from a source.
ghost use Rattle.std.specs.Prelude.{◌≡◌, ℕ, ◌≤◌, ◌<◌, All, List, [], Some, length, IfErr, IfOk};
ghost use Rattle.std.specs.Prelude.{OnOk, MatchResult};
ghost use Rattle.std.specs.Io.KnownBytes.{IsAtEnd};
ghost use Rattle.st_format.specs.Device.{AreOctets, TellsOctets};
ghost use Rattle.st_format.specs.History.{GrewFrom, IsRead};
ghost use Rattle.path_receiver.specs.Frames.{Holds, IsReceiver, State};
ghost use Rattle.path_receiver.specs.Opening.{AreDifferent};
ghost use Rattle.media_file.specs.Faults.{CountsDevice, IfContent, IsMachine};
ghost use Rattle.media_file.specs.Fields.{Fails, GaveFault};
ghost use Rattle.st_format.specs.Given.{Takes};
ghost use Rattle.media_file.specs.StateFile.{Kept, state_text};
ghost use Rattle.receiver_file.specs.Giving.{GaveAllOf};
ghost use Rattle.receiver_file.specs.Saved.{IsReceiverFile, IsSaved, IsWritable, kept_of};
ghost use Rattle.receiver_file.specs.StateFaults.{IsStateFault};
ghost use Rattle.receiver_file.specs.StateReading.{state_walk};

use crate::frames::{Frames, read_frames};
use crate::front::{Head, read_head, read_name};
use crate::telling::tell_receiver;
use frame_assembly::Frame;
use media_file::{FileFault, read_end, read_format};
use path_receiver::Receiver;
use st_format::{ByteSource, Format};
use std::alloc::Allocator;

/// Reads a receiver that was written as a file. Its list of refusals is empty.
///
/// # Errors
///
/// The first fault in the order of the octets, or one of the memory or the device before it:
/// `NoMemory`, `Device`, `BadName`, `BadVersion`, `Truncated`, `BadField` (a format block that is
/// none, a payload type above 127, a flag above 1, a source other than 0 where none is pinned, 0 or
/// more than 16 timestamps, one that stood before, or a state of a group above 2), `MixedGroup` (a
/// mask of 0, a bit beyond the group's samples, or a contested sample that isn't 0), or
/// `TrailingBytes` where an octet stands behind the last group.
pub fn load_receiver<A: Allocator + Copy, S: ByteSource>(
    alloc: A,
    source: &mut S,
) -> Result<Receiver<A>, FileFault>
    ensures counted { CountsDevice (S.failures source.old) (S.failures source.new) result }
    ensures receiver { IfOk result (λ r. IsReceiver r) }
    ensures refusals { IfOk result (λ r. r.refusals ≡ []) }
    // It can be written again.
    ensures writable { IfOk result (λ r. IsWritable r) }
    // A source that told its octets is at its end.
    ensures end { IfOk result
        (λ r. (octets : List ℕ) → S.to_give source.old ≡ Some octets
        → IsAtEnd (S.to_give source.new)) }
    // What is read is the file of the receiver that is answered, all of it, and one that can be.
    ensures found { IfOk result (λ r. (octets : List ℕ) → S.to_give source.old ≡ Some octets
        → IsReceiverFile octets r × IsSaved (kept_of r)) }
    // A fault of the content is one whose condition holds of the octets.
    ensures wrong { IfErr result (λ f. (octets : List ℕ) → S.to_give source.old ≡ Some octets
        → IfContent f (IsStateFault f octets)) }
    // What is a receiver's file is read as what it says, unless the memory or the device fails.
    ensures only { (k : Kept) → S.to_give source.old ≡ Some (state_text k) → IsSaved k
        → MatchResult result (λ r. kept_of r ≡ k) IsMachine }
    // The file of a receiver is read as that receiver, its refusals aside,
    ensures same { (s : State) → S.to_give source.old ≡ Some (state_text (kept_of s)) → IsWritable s
        → IfOk result (λ r. (r.opening ≡ s.opening) × (r.frames ≡ s.frames)) }
    // and so it holds the frames of the datagrams that that one held.
    ensures holds { (s : State) (datagrams : List (List ℕ))
        → S.to_give source.old ≡ Some (state_text (kept_of s)) → IsWritable s
        → Holds s datagrams → IfOk result (λ r. Holds r datagrams) }
    // The same by the walk from the left, for the walks that go on from it.
    ensures read { IfOk result
        (λ r. Takes state_walk (S.to_give source.old) (S.to_give source.new) (kept_of r)) }
    ensures fault { IfErr result (λ f. Fails state_walk (S.to_give source.old) f) }
    // The same of what any source gave, whether it told its octets or not: all of it was read, up
    // to its end, and is the file of the receiver that is answered.
    ensures gave { IfOk result (λ r. (octets : List ℕ)
        → IsRead (S.gave source.old) (S.gave source.new) (S.ended source.new) octets
        → IsReceiverFile octets r × IsSaved (kept_of r)) }
    ensures ended { OnOk result (S.ended source.new) }
    ensures gave_wrong { IfErr result (λ f. (octets : List ℕ)
        → IsRead (S.gave source.old) (S.gave source.new) (S.ended source.new) octets
        → AreOctets octets → IfContent f (IsStateFault f octets)) }
    ensures gave_only { (k : Kept)
        → IsRead (S.gave source.old) (S.gave source.new) (S.ended source.new) (state_text k)
        → IsSaved k → MatchResult result (λ r. kept_of r ≡ k) IsMachine }
    ensures gave_same { (s : State)
        → IsRead (S.gave source.old) (S.gave source.new) (S.ended source.new)
        (state_text (kept_of s)) → IsWritable s
        → IfOk result (λ r. (r.opening ≡ s.opening) × (r.frames ≡ s.frames)) }
    ensures gave_holds { (s : State) (datagrams : List (List ℕ))
        → IsRead (S.gave source.old) (S.gave source.new) (S.ended source.new)
        (state_text (kept_of s)) → IsWritable s
        → Holds s datagrams → IfOk result (λ r. Holds r datagrams) }
    ensures grown { GrewFrom (S.gave source.old) (S.gave source.new) }
{
    read_receiver(alloc, source)
}

/// The same; what this says of octets is what the public call is proved from.
fn read_receiver<A: Allocator + Copy, S: ByteSource>(
    alloc: A,
    source: &mut S,
) -> Result<Receiver<A>, FileFault>
    ensures read { IfOk result
        (λ r. Takes state_walk (S.to_give source.old) (S.to_give source.new) (kept_of r)) }
    ensures fault { IfErr result (λ f. Fails state_walk (S.to_give source.old) f) }
    ensures gave { IfOk result (λ r. GaveAllOf state_walk
        (S.gave source.old) (S.gave source.new) (S.ended source.new) (kept_of r)) }
    ensures gave_wrong { IfErr result (λ f. GaveFault state_walk
        (S.gave source.old) (S.gave source.new) (S.ended source.new) f) }
    ensures counted { CountsDevice (S.failures source.old) (S.failures source.new) result }
    ensures octets { TellsOctets (S.to_give source.old) }
    ensures receiver { IfOk result (λ r. IsReceiver r) }
    ensures refusals { IfOk result (λ r. r.refusals ≡ []) }
    ensures writable { IfOk result (λ r. IsWritable r) }
{
    read_name(source)?;
    let format = read_format(source)?;
    let head = read_head(source)?;
    let frames = read_frames(alloc, source, format, head.count)?;
    read_end(source)?;
    open_again(alloc, format, head, frames)
}

/// A receiver of this window, whose own frames are exchanged for those that were read.
fn open_again<A: Allocator + Copy>(
    alloc: A,
    format: Format,
    head: Head,
    frames: Frames<A>,
) -> Result<Receiver<A>, FileFault>
    requires payload_type { head.payload_type ≤ 127 }
    requires some { 0 < length frames.window.items }
    requires few { length frames.window.items ≤ 16 }
    requires different { AreDifferent frames.window.items }
    requires one_each { length frames.frames.items ≡ length frames.window.items }
    requires of_format { All (λ r. r.format ≡ format) frames.frames.items }
    ensures memory { IfErr result (λ f. f ≡ FileFault.NoMemory) }
    ensures receiver { IfOk result (λ r. IsReceiver r) }
    ensures opening { IfOk result
        (λ r. r.opening
        ≡ record {
          format = format;
          payload_type = head.payload_type;
          ssrc = head.ssrc;
          window =
              frames.window.items;
        }) }
    ensures frames { IfOk result (λ r. r.frames ≡ frames.frames.items) }
    ensures refusals { IfOk result (λ r. r.refusals ≡ []) }
    ensures writable { IfOk result (λ r. IsWritable r) }
{
    let Frames { window, mut frames } = frames;
    let opened = Receiver::open(
        alloc,
        format,
        head.payload_type,
        head.ssrc,
        window.as_slice(),
    );
    let Ok(mut receiver) = opened else {
        return Err(FileFault::NoMemory);
    };
    set_frames(&mut receiver, frames.as_mut_slice());
    tell_receiver(&receiver);
    Ok(receiver)
}

/// Gives a receiver its frames, and takes those that it had.
fn set_frames<A: Allocator>(receiver: &mut Receiver<A>, frames: &mut [Frame<A>])
    requires receiver { IsReceiver receiver.old }
    requires one_each { length frames.old ≡ length receiver.old.opening.window }
    requires of_format { All (λ r. r.format ≡ receiver.old.opening.format) frames.old }
    ensures opening { receiver.new.opening ≡ receiver.old.opening }
    ensures frames { receiver.new.frames ≡ frames.old }
    ensures refusals { receiver.new.refusals ≡ receiver.old.refusals }
    ensures receiver { IsReceiver receiver.new }
{
    for place in 0..frames.len() {
        receiver.set_frame(place, &mut frames[place]);
    }
}
