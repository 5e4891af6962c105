//! Where a timestamp stands to the frames that are in.
ghost use Rattle.std.specs.Prelude.{◌≡◌, ◌≢◌, ◌≤◌, All, IfNone, IfSome, Some, length, slice_get};
ghost use Rattle.std.specs.List.{list_all};
ghost use Rattle.following.specs.Serial.{ahead_of, is_newer};
ghost use Rattle.following.specs.Standing.{entry_at, is_behind, is_beyond, is_there, newest_in};
ghost use Rattle.following.specs.Standing.{place_in, standing_in, standing_near};

/// Where a timestamp stands to the frames that are in.
#[derive(Clone, Copy, Debug, PartialEq, Eq)]
pub enum Standing {
    /// Its frame is in, at this place, counted from the oldest.
    Inside(usize),
    /// It is new, and there is room: its frame comes in at this place.
    New(usize),
    /// It is new and not older than all, and there is no room.
    Waits,
    /// It came too late, or has no place in the order of those that are in.
    Nowhere,
    /// It is too far ahead of the newest.
    Beyond,
}

/// Half of the times that a timestamp tells apart.
const HALF: u32 = 0x8000_0000;

/// Where a timestamp stands to a window of frames, oldest first, of a follower of so many, which
/// handed out the frame of the timestamp `gone` last, and where a new one is at most so many ticks
/// ahead of the newest.
pub fn find_place(
    window: &[u32],
    gone: Option<u32>,
    size: usize,
    most_ahead: u32,
    timestamp: u32,
) -> Standing
    ensures { result
        ≡ standing_near (is_beyond (newest_in gone window.now) most_ahead timestamp)
        (standing_in window.now gone size timestamp) }
{
    if beyond(newest(window, gone), most_ahead, timestamp) {
        return Standing::Beyond;
    }
    place_among(window, gone, size, timestamp)
}

/// The newest timestamp: the last of the window, or else `gone`.
fn newest(window: &[u32], gone: Option<u32>) -> Option<u32>
    ensures { result ≡ newest_in gone window.now }
{
    let mut newest = gone;
    for timestamp in window {
        newest = Some(*timestamp);
    }
    newest
}

/// Whether a timestamp is newer than the newest, by more ticks than it may be.
pub fn beyond(newest: Option<u32>, most_ahead: u32, timestamp: u32) -> bool
    ensures { result ≡ is_beyond newest most_ahead timestamp }
{
    match newest {
        None => false,
        Some(last) => newer(timestamp, last) && most_ahead < ahead(timestamp, last),
    }
}

/// Where it stands if it is not too far ahead.
fn place_among(window: &[u32], gone: Option<u32>, size: usize, timestamp: u32) -> Standing
    ensures { result ≡ standing_in window.now gone size timestamp }
{
    let place = older_count(window, timestamp);
    if has_at(window, place, timestamp) {
        return Standing::Inside(place);
    }
    if !follows(gone, timestamp) || !precedes(&window[place..], timestamp) {
        return Standing::Nowhere;
    }
    entry(window.len(), size, place)
}

/// Whether there is room for a new frame, and where.
fn entry(count: usize, size: usize, place: usize) -> Standing
    ensures { result ≡ entry_at count size place }
{
    if count < size {
        Standing::New(place)
    } else if place == 0 {
        Standing::Nowhere
    } else {
        Standing::Waits
    }
}

/// How many timestamps from the first one on are older.
pub fn older_count(window: &[u32], timestamp: u32) -> usize
    ensures place { result ≡ place_in timestamp window.now }
    ensures within { result ≤ length window.now }
{
    for (place, other) in window.iter().enumerate() {
        if !newer(timestamp, *other) {
            return place;
        }
    }
    window.len()
}

/// The place of a timestamp, counted from the oldest; `None` where the window hasn't it.
pub fn place_there(window: &[u32], timestamp: u32) -> Option<usize>
    ensures found { IfSome result (λ i. slice_get window.now i ≡ Some timestamp) }
    ensures none { IfNone result (All (λ t. t ≢ timestamp) window.now) }
{
    window.iter().position(|t| *t == timestamp)
}

/// Whether the timestamp stands at a place.
pub fn has_at(window: &[u32], place: usize, timestamp: u32) -> bool
    ensures { result ≡ is_there window.now place timestamp }
{
    place < window.len() && window[place] == timestamp
}

/// Whether a timestamp is newer than that of the frame that was handed out last.
fn follows(gone: Option<u32>, timestamp: u32) -> bool
    ensures { result ≡ is_behind gone timestamp }
{
    match gone {
        None => true,
        Some(last) => newer(timestamp, last),
    }
}

/// Whether all of these are newer.
fn precedes(later: &[u32], timestamp: u32) -> bool
    ensures { result ≡ list_all (λ t. is_newer t timestamp) later.now }
{
    later.iter().all(|other| newer(*other, timestamp))
}

/// Whether the one timestamp is newer than the other: it is ahead, by less than half of the round
/// (RFC 1982, 3.2).
pub fn newer(left: u32, right: u32) -> bool
    ensures { result ≡ is_newer left right }
{
    let ahead = ahead(left, right);
    0 < ahead && ahead < HALF
}

/// How many ticks a timestamp is ahead of another, going round.
fn ahead(left: u32, right: u32) -> u32
    ensures { result ≡ ahead_of left right }
{
    left.wrapping_sub(right)
}
