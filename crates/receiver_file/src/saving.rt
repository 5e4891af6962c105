//! A receiver to a sink.
ghost use Rattle.std.specs.Prelude.{◌≡◌, ◌∷◌, ◌++◌, [], IfErr, Ok, OnErr, OnOk};
ghost use Rattle.std.specs.Int.{w32, to_be_bytes};
ghost use Rattle.std.specs.Io.KnownBytes.{Appends};
ghost use Rattle.st_format.specs.Device.{AppendsPrefix, CountsFaults, GrowsPart};
ghost use Rattle.path_receiver.specs.Frames.{IsReceiver, State};
ghost use Rattle.media_file.specs.Faults.{CountsDevice, IsDevice};
ghost use Rattle.media_file.specs.StateFile.{opening_text, ssrc_text, state_text};
ghost use Rattle.receiver_file.specs.Saved.{IsWritable, kept_of};
ghost use Rattle.receiver_file.specs.Saved.{kept_frame_text, kept_frames_text, kept_front_text};
ghost use Rattle.receiver_file.specs.StateReading.{state_walk};

use crate::rows::write_rows;
use crate::telling::tell_receiver;
use byteorder::{BigEndian, ByteOrder};
use frame_assembly::Frame;
use media_file::{FileFault, format_block};
use path_receiver::Receiver;
use st_format::{ByteSink, DeviceFault, write_whole};
use std::alloc::Allocator;

/// What a receiver's file begins with: its name, and version 01.
const RECEIVER_ONE: &[u8] = b"S20RCV01";

/// Writes a receiver as a file: what it was opened with, and for each timestamp of its window, in
/// window order, what is known of each sample of its frame. The refusals are not written. No memory
/// is taken.
///
/// # Errors
///
/// `Device` where the sink failed: it then has a first part of the file more than before, and not
/// all.
pub fn save_receiver<A: Allocator, K: ByteSink>(
    sink: &mut K,
    receiver: &Receiver<A>,
) -> Result<(), FileFault>
    ensures ok { OnOk result
        (Appends (K.held sink.old) (K.held sink.new) (state_text (kept_of receiver.now))) }
    ensures fault { IfErr result
        (λ f. IsDevice f
        × AppendsPrefix (K.held sink.old) (K.held sink.new) (state_text (kept_of receiver.now))) }
    ensures counted { CountsDevice (K.failures sink.old) (K.failures sink.new) result }
    // What any sink took of it, whether it tells what it holds or not.
    ensures took { OnOk result
        (K.took sink.new ≡ K.took sink.old ++ state_text (kept_of receiver.now)) }
    ensures took_part { OnErr result
        (GrowsPart (K.took sink.old) (K.took sink.new) (state_text (kept_of receiver.now))) }
    // Each receiver can be written: its file is read, to its end, as what is kept of it,
    ensures writable { IsWritable receiver.now }
    ensures again { state_walk (state_text (kept_of receiver.now)) ≡ Ok (kept_of receiver.now, []) }
    // and a receiver that is read of it is this one, its refusals aside.
    ensures same { (s : State) → IsReceiver s
        → state_walk (state_text (kept_of receiver.now)) ≡ Ok (kept_of s, [])
        → (s.opening ≡ receiver.now.opening) × (s.frames ≡ receiver.now.frames) }
{
    tell_receiver(receiver);
    write_start(sink, receiver)?;
    write_frames(sink, receiver)?;
    Ok(())
}

/// Writes what stands before the frames: name, version, format block, and seven octets more.
fn write_start<A: Allocator, K: ByteSink>(
    sink: &mut K,
    receiver: &Receiver<A>,
) -> Result<(), DeviceFault>
    ensures ok { OnOk result
        (Appends (K.held sink.old) (K.held sink.new) (kept_front_text (kept_of receiver.now))) }
    ensures fault { OnErr result
        (AppendsPrefix (K.held sink.old) (K.held sink.new)
        (kept_front_text (kept_of receiver.now))) }
    ensures counted { CountsFaults (K.failures sink.old) (K.failures sink.new) result }
    ensures took { OnOk result
        (K.took sink.new ≡ K.took sink.old ++ kept_front_text (kept_of receiver.now)) }
    ensures took_part { OnErr result
        (GrowsPart (K.took sink.old) (K.took sink.new) (kept_front_text (kept_of receiver.now))) }
{
    write_whole(sink, RECEIVER_ONE)?;
    write_whole(sink, &format_block(&receiver.format()))?;
    write_whole(sink, &opening_fields(receiver))
}

/// The fields behind the format block.
fn opening_fields<A: Allocator>(receiver: &Receiver<A>) -> [u8; 7]
    ensures { result ≡ opening_text (kept_of receiver.now) }
{
    let count = receiver.window().len() as u8;
    opening_of(receiver.payload_type(), receiver.ssrc(), count)
}

/// A payload type, the source that is pinned or none, and how many timestamps there are.
fn opening_of(payload_type: u8, ssrc: Option<u32>, count: u8) -> [u8; 7]
    ensures { result ≡ payload_type ∷ (ssrc_text ssrc ++ (count ∷ [])) }
{
    let mut opening = [0u8; 7];
    opening[0] = payload_type;
    if let Some(ssrc) = ssrc {
        opening[1] = 1;
        BigEndian::write_u32(&mut opening[2..], ssrc);
    }
    opening[6] = count;
    opening
}

/// Writes the frames, in window order, each behind its timestamp.
fn write_frames<A: Allocator, K: ByteSink>(
    sink: &mut K,
    receiver: &Receiver<A>,
) -> Result<(), DeviceFault>
    ensures ok { OnOk result
        (Appends (K.held sink.old) (K.held sink.new) (kept_frames_text (kept_of receiver.now))) }
    ensures fault { OnErr result
        (AppendsPrefix (K.held sink.old) (K.held sink.new)
        (kept_frames_text (kept_of receiver.now))) }
    ensures counted { CountsFaults (K.failures sink.old) (K.failures sink.new) result }
    ensures took { OnOk result
        (K.took sink.new ≡ K.took sink.old ++ kept_frames_text (kept_of receiver.now)) }
    ensures took_part { OnErr result
        (GrowsPart (K.took sink.old) (K.took sink.new) (kept_frames_text (kept_of receiver.now))) }
{
    for timestamp in receiver.window() {
        write_frame(sink, *timestamp, receiver.frame(*timestamp).unwrap())?;
    }
    Ok(())
}

/// A timestamp, as it stands before its frame: the highest octet first.
fn timestamp_octets(timestamp: u32) -> [u8; 4]
    ensures { result ≡ to_be_bytes w32 timestamp }
{
    let mut octets = [0u8; 4];
    BigEndian::write_u32(&mut octets, timestamp);
    octets
}

/// Writes a timestamp, and the groups of its frame behind it.
fn write_frame<A: Allocator, K: ByteSink>(
    sink: &mut K,
    timestamp: u32,
    frame: &Frame<A>,
) -> Result<(), DeviceFault>
    ensures ok { OnOk result
        (Appends (K.held sink.old) (K.held sink.new) (kept_frame_text timestamp frame.now)) }
    ensures fault { OnErr result
        (AppendsPrefix (K.held sink.old) (K.held sink.new) (kept_frame_text timestamp frame.now)) }
    ensures counted { CountsFaults (K.failures sink.old) (K.failures sink.new) result }
    ensures took { OnOk result
        (K.took sink.new ≡ K.took sink.old ++ kept_frame_text timestamp frame.now) }
    ensures took_part { OnErr result
        (GrowsPart (K.took sink.old) (K.took sink.new) (kept_frame_text timestamp frame.now)) }
{
    write_whole(sink, &timestamp_octets(timestamp))?;
    write_rows(sink, frame)
}
