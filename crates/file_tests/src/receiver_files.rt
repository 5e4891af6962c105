//! Receivers' files of which a source gives pieces, and which it lends or doesn't: of each size
//! they are read alike, whole, cut and wrong, and nothing is asked for behind what tells the
//! answer. They are written row by row.
ghost use Rattle.std.specs.Prelude.{◌≡◌, true, None};

use crate::checks::met;
use capture_file::FileFault;
use receiver_file::{load_receiver, save_receiver};
use st_format::memory::{MemorySink, MemorySource};
use st_format::{ByteSink, ByteSource, DeviceFault};
use std::alloc::{AllocError, Global};
use std::process::Abort;
use std::test::Fail;

/// How many octets a source gives at most in a call.
const PIECES: [usize; 8] = [1, 2, 3, 5, 7, 11, 64, 4096];

/// A file of one frame, where each of its groups begins, and where those of contested samples begin
/// and end.
type Table = (&'static [u8], &'static [usize], &'static [(usize, usize)]);

/// 4:2:2, 10 bits, 6 by 4: groups of 4 samples in 5 octets, three in a row.
const YCC: Table = (
    b"S20RCV01\0\x0A\0\x06\0\x04\0\0\0\x3C\0\0\0\x01\x60\0\0\0\0\0\x01\0\0\x03\x84\
    \x01\x10\x21\x32\x43\x54\x01\x01\x01\x01\x01\x01\0\
    \x02\0\x01\0\x3F\xFF\xFF\xFF\x01\x02\0\0\x03\x04\0\
    \0\0\x02\0\x08\xFF\xFF\xFF\xFC\0\
    \x01\0\0\0\0\0\x02\0\x0F\0\0\0\0\0\x01\xFF\xFF\xFF\xFF\xFF",
    &[33, 39, 45, 46, 54, 60, 61, 62, 63, 71, 77, 85],
    &[(46, 54), (63, 71), (77, 85)],
);

/// RGB, 12 bits, 4 by 3: groups of 6 samples in 9 octets, two in a row.
const RGB: Table = (
    b"S20RCV01\x02\x0C\0\x04\0\x03\0\0\0\x3C\0\0\0\x01\x60\0\0\0\0\0\x01\0\0\x03\x84\
    \0\x02\0\x01\0\x0F\x03\x04\x05\x06\x07\x08\x09\
    \x01\x02\0\0\0\x01\x01\0\0\x02\x01\x11\x12\x13\x14\x15\x16\x17\x18\x19\
    \x02\0\x20\x01\x02\x03\x04\x05\x06\x07\xF0\0\0",
    &[33, 34, 46, 56, 66, 78],
    &[(34, 46), (66, 78)],
);

/// A source that lends nothing, and notes the farthest octet that a call asked for.
#[derive(Drop)]
struct Asked {
    inner: MemorySource,
    at: usize,
    farthest: usize,
}

impl ByteSource for Asked {
    ghost to_give = { λ _. None };

    ghost gave = { λ s. s.inner.gave };

    ghost ended = { λ s. s.inner.is_ended ≡ true };

    ghost failures = { λ s. s.inner.failures };

    fn read(&mut self, buf: &mut [u8]) -> Result<usize, DeviceFault> {
        self.farthest = self.farthest.max(self.at.saturating_add(buf.len()));
        let count = self.inner.read(buf)?;
        self.at = self.at.saturating_add(count);
        Ok(count)
    }
}

/// A sink that counts its calls.
#[derive(Drop)]
struct Counting {
    inner: MemorySink,
    calls: usize,
}

impl ByteSink for Counting {
    ghost held = { λ _. None };

    ghost took = { λ s. s.inner.took };

    ghost failures = { λ s. s.inner.failures };

    fn write(&mut self, octets: &[u8]) -> Result<usize, DeviceFault> {
        self.calls = self.calls.saturating_add(1);
        self.inner.write(octets)
    }
}

/// A sink for a file.
fn empty_sink(alloc: Global) -> Result<Counting, AllocError> {
    let inner = MemorySink::new(Vec::with_capacity(alloc, 1 << 16)?, 1 << 16, 0);
    Ok(Counting { inner, calls: 0 })
}

/// Reads a source, and writes the receiver again; the fault, where there is one.
fn copied<S: ByteSource>(alloc: Global, source: &mut S, sink: &mut Counting) -> Option<FileFault> {
    match load_receiver(alloc, source) {
        Ok(receiver) => save_receiver(sink, &receiver).err(),
        Err(fault) => Some(fault),
    }
}

/// Whether octets have this fault, by pieces of each size, of a source that lends them and of one
/// that doesn't, where no octet from `end` on is taken or asked for; without a fault they are
/// written again, and the octet behind them is asked for.
fn is_answered(
    alloc: Global,
    octets: &[u8],
    fault: Option<FileFault>,
    end: usize,
) -> Result<bool, AllocError> {
    let behind = usize::from(fault.is_none());
    let mut are = true;
    for piece in PIECES {
        let (mut one, mut other) = (empty_sink(alloc)?, empty_sink(alloc)?);
        let mut lending = MemorySource::new(Vec::from_slice(alloc, octets)?, piece.max(1), 0);
        let mut asked = Asked {
            inner: MemorySource::new(Vec::from_slice(alloc, octets)?, piece.max(1), 0),
            at: 0,
            farthest: 0,
        };
        are &= copied(alloc, &mut lending, &mut one) == fault;
        are &= copied(alloc, &mut asked, &mut other) == fault;
        are &= lending.to_give().len() == octets.len().saturating_sub(end);
        are &= asked.farthest == end.saturating_add(behind);
        if fault.is_none() {
            are &= one.inner.held() == octets && other.inner.held() == octets;
        }
    }
    Ok(are)
}

/// Whether the first `end` octets of a file, and all of it, have a fault where another octet stands
/// at a place, of which nothing is asked for from `end` on.
fn is_wrong(
    alloc: Global,
    file: &[u8],
    change: (usize, u8),
    fault: FileFault,
    end: usize,
) -> Result<bool, AllocError> {
    let mut octets = Vec::from_slice(alloc, file)?;
    if change.0 < octets.len() {
        octets[change.0] = change.1;
    }
    let end = end.min(octets.len());
    Ok(
        is_answered(alloc, &octets, Some(fault), end)?
            && is_answered(alloc, &octets[..end], Some(fault), end)?,
    )
}

/// Whether octets are truncated, by pieces of each size.
fn are_truncated(alloc: Global, octets: &[u8]) -> Result<bool, AllocError> {
    let mut are = true;
    for piece in PIECES {
        let mut source = MemorySource::new(Vec::from_slice(alloc, octets)?, piece.max(1), 0);
        let fault = copied(alloc, &mut source, &mut empty_sink(alloc)?);
        are &= fault == Some(FileFault::Truncated) && source.to_give().is_empty();
    }
    Ok(are)
}

/// Files that are whole, have an octet more behind, and are cut at each octet.
#[test]
fn whole_and_cut(rt: HostRuntime) -> Result<(), Fail> {
    for (file, _, _) in [YCC, RGB] {
        met(&rt, is_answered(rt.alloc(), file, None, file.len())?);
        let mut octets = Vec::from_slice(rt.alloc(), file)?;
        octets.extend_from_slice(&[0, 1, 2])?;
        let (fault, end) = (Some(FileFault::TrailingBytes), file.len() + 1);
        met(&rt, is_answered(rt.alloc(), &octets, fault, end)?);
        for end in 0..file.len() {
            met(&rt, are_truncated(rt.alloc(), &file[..end])?);
        }
    }
    Ok(())
}

/// A state that no group has is the fault once it is there, and a mask that names no sample once
/// its group is whole.
#[test]
fn a_wrong_group(rt: HostRuntime) -> Result<(), Fail> {
    for (file, states, mixed) in [YCC, RGB] {
        for at in states {
            let (fault, end) = (FileFault::BadField, at.saturating_add(1));
            met(&rt, is_wrong(rt.alloc(), file, (*at, 3), fault, end)?);
        }
        for (at, end) in mixed {
            let (change, fault) = ((at.saturating_add(2), 0), FileFault::MixedGroup);
            met(&rt, is_wrong(rt.alloc(), file, change, fault, *end)?);
        }
    }
    Ok(())
}

/// A file of 4:2:2, 8 bits, of so many groups a row, of which each third one is missing.
fn rows(alloc: Global, per_row: u16, rows: u16) -> Result<Vec<u8>, AllocError> {
    let mut file = Vec::from_slice(alloc, b"S20RCV01\0\x08")?;
    file.extend_from_slice(&per_row.wrapping_mul(2).to_be_bytes())?;
    file.extend_from_slice(&rows.to_be_bytes())?;
    file.extend_from_slice(b"\0\0\0\x3C\0\0\0\x01\x60\0\0\0\0\0\x01\0\0\x03\x84")?;
    for group in 0..u32::from(per_row) * u32::from(rows) {
        file.extend_from_slice(if group % 3 == 2 {
            b"\0"
        } else {
            b"\x01\x05\x06\x07\x08"
        })?;
    }
    Ok(file)
}

/// How many groups a row has, how many rows there are, and how many writes a row takes: it is
/// gathered in 4096 octets.
const SIZES: [(u16, u16, usize); 3] = [(32, 52, 1), (1000, 3, 1), (3000, 2, 3)];

/// Files of more than 4096 octets: they are read in pieces too, a wrong group beyond the first 4096
/// octets is found where it stands, and they are written row by row behind four parts.
#[test]
fn rows_and_runs(rt: HostRuntime) -> Result<(), Fail> {
    for (per_row, count, writes) in SIZES {
        let mut file = rows(rt.alloc(), per_row, count)?;
        met(&rt, is_answered(rt.alloc(), &file, None, file.len())?);
        let mut source = MemorySource::new(Vec::from_slice(rt.alloc(), &file)?, 4096, 0);
        let mut sink = empty_sink(rt.alloc())?;
        met(&rt, copied(rt.alloc(), &mut source, &mut sink).is_none());
        let calls = usize::from(count).saturating_mul(writes);
        met(&rt, sink.calls == calls.saturating_add(4));
        // The state of the group at place 1200, where 400 times two groups and a missing one are.
        let at = 33 + 400 * 11;
        if at < file.len() {
            file[at] = 3;
            let (fault, end) = (Some(FileFault::BadField), at + 1);
            met(&rt, is_answered(rt.alloc(), &file, fault, end)?);
        }
    }
    Ok(())
}
