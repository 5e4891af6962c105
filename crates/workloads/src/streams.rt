//! The jobs on datagrams of two paths: a capture that is received, and a live stream.
ghost use Rattle.std.specs.Prelude.{◌≡◌, ◌≤◌, length};

use crate::camera::{Datagrams, HEAD, description, video};
use crate::fault::Fault;
use crate::numbers::{Bursts, Digest, Noise, number};
use crate::records::{Records, comes};
use crate::running::{note, sink, source};
use crate::states::Size;
use frame_assembly::{Base, Frame};
use media_file::{CaptureWriter, Paths};
use packet_plan::{Plan, Stamp, send_frame};
use path_merge::{Receiver, Refusal, Taken};
use st_format::Path;
use st2110_tool::{Wanted, run_receive};
use std::alloc::Global;

/// How many packets path B runs behind path A.
const BEHIND: usize = 150;

/// A capture of the datagrams by both paths: interleaved, B behind A, with bursts lost, and some
/// that come twice or exchanged. Where the paths disagree each second datagram of B differs.
fn capture(
    alloc: Global,
    sent: &Datagrams,
    text: &[u8],
    seed: u64,
    disagree: bool,
) -> Result<Vec<u8>, Fault> {
    let count = sent.len();
    let room = count.wrapping_mul(2 * (1400 + HEAD)).wrapping_add(65_536);
    let mut records = Records::new(alloc, text, room.wrapping_add(room / 64))?;
    let mut bursts = [Bursts::new(number(seed, 1)), Bursts::new(number(seed, 2))];
    for step in 0..count.saturating_add(BEHIND) {
        if let Some((place, twice)) = comes(number(seed, 3), step, &mut bursts[0], count) {
            for _ in 0..1 + u8::from(twice) {
                records.put(0, sent.get(place), false)?;
            }
        }
        if step < BEHIND {
            continue;
        }
        let late = step - BEHIND;
        if let Some((place, twice)) = comes(number(seed, 4), late, &mut bursts[1], count) {
            for _ in 0..1 + u8::from(twice) {
                records.put(1, sent.get(place), disagree && place % 2 == 1)?;
            }
        }
    }
    Ok(records.into_octets())
}

/// A capture of both paths is received, and the receiver kept. In each third round the paths
/// disagree.
pub fn receive(
    alloc: Global,
    size: Size,
    seed: u64,
    rounds: u64,
    digest: &mut Digest,
) -> Result<(), Fault> {
    let format = video(size)?;
    let text = description(alloc, size)?;
    let noise = Noise::new(alloc, seed)?;
    for round in 0..rounds {
        let drawn = number(seed, round);
        let seeds = [number(drawn, 1), number(drawn, 2)];
        let sent = Datagrams::shoot(alloc, &format, &noise, &seeds, 0)?;
        let file = capture(alloc, &sent, text.as_bytes(), drawn, round % 3 == 2)?;
        let mut state = sink(alloc, file.len().wrapping_add(4096))?;
        let mut output = sink(alloc, 4096)?;
        let mut faults = sink(alloc, 256)?;
        let wanted = Wanted {
            window: b"0,1500",
            ssrc: b"1",
            tells_refusals: true,
        };
        let status = run_receive(
            alloc,
            wanted,
            &mut None,
            &mut [source(file, usize::MAX)],
            &mut state,
            &mut output,
            &mut faults,
        );
        note(digest, status, [&state, &output])?;
    }
    Ok(())
}

/// A live stream by both paths: each picture is received, looked at, settled and sent again.
pub fn live(
    alloc: Global,
    size: Size,
    seed: u64,
    rounds: u64,
    digest: &mut Digest,
) -> Result<(), Fault> {
    let format = video(size)?;
    let plan = Plan::new(alloc, format, 1400).ok().ok_or(Fault)?;
    let mut receiver = Receiver::open(alloc, format, 96, Some(1), &[0])
        .ok()
        .ok_or(Fault)?;
    let mut frame = Frame::new(alloc, format)?;
    let noise = Noise::new(alloc, seed)?;
    for round in 0..u32::try_from(rounds).unwrap_or(0) {
        let drawn = number(seed, u64::from(round));
        let timestamp = round.wrapping_mul(1500);
        let sent = Datagrams::shoot(alloc, &format, &noise, &[number(drawn, 1)], timestamp)?;
        take_all(&mut receiver, &sent, drawn, digest);
        let next = timestamp.wrapping_add(1500);
        if receiver.slide(next, &mut frame).is_err() {
            return Err(Fault);
        }
        look(&frame, digest);
        send_again(alloc, &plan, &frame, timestamp, digest)?;
    }
    Ok(())
}

/// Takes what comes of datagrams by both paths.
fn take_all(receiver: &mut Receiver, sent: &Datagrams, seed: u64, digest: &mut Digest) {
    let count = sent.len();
    let mut bursts = [Bursts::new(number(seed, 1)), Bursts::new(number(seed, 2))];
    for step in 0..count.saturating_add(BEHIND) {
        if let Some((place, _)) = comes(number(seed, 3), step, &mut bursts[0], count) {
            answered(digest, receiver.take(Path::A, sent.get(place)));
        }
        if step < BEHIND {
            continue;
        }
        let late = step - BEHIND;
        if let Some((place, _)) = comes(number(seed, 4), late, &mut bursts[1], count) {
            answered(digest, receiver.take(Path::B, sent.get(place)));
        }
    }
}

/// Takes what a receiver answered to a datagram.
fn answered(digest: &mut Digest, answer: Result<Taken, Refusal>) {
    match answer {
        Ok(Taken::Kept(number)) => digest.take_number(u64::from(number)),
        Ok(Taken::Outside) => digest.take_number(1 << 40),
        Err(refusal) => digest.take_number(1 << 41 | u64::from(refusal.number())),
    }
}

/// Takes what a frame tells of its samples.
fn look(frame: &Frame, digest: &mut Digest) {
    let counts = frame.counts();
    digest.take_number(counts.present as u64);
    digest.take_number(counts.missing as u64);
    digest.take_number(counts.contested as u64);
    for row in 0..frame.format().height() {
        for columns in frame.missing_runs(row) {
            digest.take_number(u64::from(row));
            digest.take_number(columns.start as u64);
            digest.take_number(columns.end as u64);
        }
    }
}

/// Settles a frame, and sends its picture.
fn send_again(
    alloc: Global,
    plan: &Plan,
    frame: &Frame,
    timestamp: u32,
    digest: &mut Digest,
) -> Result<(), Fault> {
    let picture = frame.settle(alloc, Base::<Global>::Fill([0, 0, 0]))?;
    let stamp = Stamp {
        payload_type: 97,
        first: 0,
        timestamp,
        ssrc: 2,
    };
    let room = (plan.len() as usize)
        .wrapping_mul(1400 + HEAD)
        .wrapping_add(64);
    let opened = CaptureWriter::open(sink(alloc, room)?, Paths::OnlyA, b"");
    let mut writer = opened.ok().ok_or(Fault)?;
    let mut buf = [0u8; 1400];
    let has_room = plan.max_octets() as usize <= buf.len();
    if !has_room || !picture.format().same(&plan.format()) {
        return Err(Fault);
    }
    send_frame(plan, &picture, stamp, &mut buf, &mut writer)
        .ok()
        .ok_or(Fault)?;
    digest.take(writer.into_inner().held());
    Ok(())
}
