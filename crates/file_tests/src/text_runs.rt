//! Runs of the engines of the text over devices in memory of `global`.
ghost use Rattle.std.specs.Prelude.{Some};

use st_format::memory::{MemorySink, MemorySource};
use st_format::{ByteSink, DeviceFault};
use st2110_tool::{run_rehearse, run_report, run_sdp, run_trace};
use std::alloc::{AllocError, Allocator, Global};

/// What an engine tells where memory is wanted, and where a device fails.
pub const MEMORY: &[u8] = b"st2110: memory\n";

pub const DEVICE: &[u8] = b"st2110: device\n";

/// What a report tells of *contested*'s receiver.
pub const REPORT: &[u8] = b"receiver YCbCr-4:2:2 8 4 2 60/1 pt 96 ssrc any\n\
    frame 900 present 7 missing 8 contested 1\n\
    missing row 1 columns 0 to 3\n\
    contested row 0 column 0 Y\n\
    end\n";

/// An engine of the text.
#[derive(Clone, Copy, PartialEq, Eq)]
pub enum Engine {
    Trace,
    Rehearse,
    Sdp,
    Report,
}

/// At which of its calls each device fails, counted from 1; 0 means that it does not.
#[derive(Clone, Copy)]
pub struct Failing {
    pub source: u64,
    pub output: u64,
    pub faults: u64,
}

/// Devices of which no call fails.
pub const SOUND: Failing = Failing {
    source: 0,
    output: 0,
    faults: 0,
};

/// A sink that notes its calls: how many they are, how many octets they bring at most, and whether
/// each brings whole lines.
#[derive(Drop)]
pub struct Noting {
    inner: MemorySink,
    pub calls: u64,
    pub longest: usize,
    pub are_lines: bool,
}

impl ByteSink for Noting {
    ghost held = { λ s. Some s.inner.held };

    ghost took = { λ s. s.inner.took };

    ghost failures = { λ s. s.inner.failures };

    fn write(&mut self, octets: &[u8]) -> Result<usize, DeviceFault> {
        self.calls = self.calls.saturating_add(1);
        self.longest = self.longest.max(octets.len());
        self.are_lines &= octets.last() == Some(&b'\n');
        self.inner.write(octets)
    }
}

/// How a run ended, and what it wrote.
#[derive(Drop)]
pub struct Ran {
    pub status: u8,
    pub output: Noting,
    faults: MemorySink,
}

impl Ran {
    /// What it wrote to output.
    pub fn printed(&self) -> &[u8] {
        self.output.inner.held()
    }

    /// What it wrote to faults.
    pub fn told(&self) -> &[u8] {
        self.faults.held()
    }

    /// Whether it ended with this status, and wrote just these octets to output and faults.
    pub fn ended(&self, status: u8, printed: &[u8], told: &[u8]) -> bool {
        self.status == status && self.printed() == printed && self.told() == told
    }
}

/// Runs an engine over devices that move at most `piece` octets a call.
pub fn run<A: Allocator + Copy>(
    global: Global,
    alloc: A,
    engine: Engine,
    input: &[u8],
    piece: usize,
    failing: Failing,
) -> Result<Ran, AllocError> {
    let piece = piece.max(1);
    let mut source = MemorySource::new(Vec::from_slice(global, input)?, piece, failing.source);
    let mut output = Noting {
        inner: MemorySink::new(Vec::with_capacity(global, 1 << 16)?, piece, failing.output),
        calls: 0,
        longest: 0,
        are_lines: true,
    };
    let mut faults = MemorySink::new(Vec::with_capacity(global, 64)?, piece, failing.faults);
    let status = match engine {
        Engine::Trace => run_trace(alloc, &mut source, &mut output, &mut faults),
        Engine::Rehearse => run_rehearse(alloc, &mut source, &mut output, &mut faults),
        Engine::Sdp => run_sdp(alloc, &mut source, &mut output, &mut faults),
        Engine::Report => run_report(alloc, &mut source, &mut output, &mut faults),
    };
    Ok(Ran {
        status,
        output,
        faults,
    })
}
