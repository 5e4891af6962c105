//! How much memory a receiver asks for. It is told to a person where there is none.
use command_end::Room;
use devices::FileSource;
use media_file::CaptureReader;
use run_outcome::{read_timestamps, room};
use sdp_format::read_sdp;
use st_format::Format;
use std::alloc::Global;

/// What is asked of memory for the frames of the window, where it can be found: the format is said
/// by the SDP's text, or else by that of the first capture, which is read once more.
pub(crate) fn room_of(
    rt: &HostRuntime,
    window: &[u8],
    recordings: &[&str],
    said: Option<&[u8]>,
) -> Option<Room> {
    let frames = read_timestamps(rt.alloc(), window).ok()??.len();
    let octets = match said {
        Some(said) => frame_octets(rt.alloc(), said)?,
        None => first_octets(rt, recordings)?,
    };
    Some(Room { frames, octets })
}

/// How many octets a frame takes of the format that the first capture's text says.
fn first_octets(rt: &HostRuntime, names: &[&str]) -> Option<u64> {
    let name = names.first()?;
    let mut text = room(rt.alloc()).ok()?;
    let mut source = FileSource::new(rt, name);
    let reader = CaptureReader::open(&mut source, &mut text).ok()?;
    let len = reader.text_len();
    frame_octets(rt.alloc(), text.get(..len)?)
}

/// How many octets a frame takes of the format that a text says: those of its samples, and two for
/// each pgroup.
fn frame_octets(alloc: Global, said: &[u8]) -> Option<u64> {
    let format = read_sdp(alloc, said).ok()?.format;
    Some(octets_of(&format))
}

fn octets_of(format: &Format) -> u64 {
    let row = format.row_octets() as u64 + 2 * u64::from(format.row_groups());
    row.saturating_mul(u64::from(format.height()))
}
