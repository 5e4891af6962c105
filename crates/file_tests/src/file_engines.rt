//! The engines of files over devices in memory, with each growth refused in turn; and then the same
//! run with memory.
ghost use Rattle.std.specs.Prelude.{◌≡◌, [], IfOk};

use crate::checks::met;
use crate::text_runs::MEMORY;
use refusing::Refusing;
use st_format::memory::{MemorySink, MemorySource};
use st2110_tool::{
    Paths, Processing, Sending, Wanted, run_merge, run_migrate, run_process, run_receive, run_send,
};
use std::alloc::{AllocError, Allocator, Global};
use std::process::Abort;
use std::test::Fail;
use test_kit::sending::STAMP;
use test_kit::wanting::{Wanting, grows};

/// An engine.
#[derive(Clone, Copy)]
enum Engine {
    Migrate,
    Receive,
    Send,
    Merge,
    Process,
}

/// The text Q.
const SDP: &[u8] =
    b"m=video 5004 RTP/AVP 96\na=rtpmap:96 raw/90000\na=fmtp:96 sampling=YCbCr-4:2:2; width=4; height=2; exactframerate=60; depth=8; colorimetry=BT709; PM=2110GPM; SSN=ST2110-20:2017\n";

/// *capture-of-one*, of version 01.
const CAPTURE: &str =
    "5332304341503031000000000000000000001C80E00001000003840000000100000008000000008010801180128013";

/// The same of version 02, with the text Q.
const MIGRATED: &str =
    "533230434150303200AF6D3D766964656F2035303034205254502F4156502039360A613D7274706D61703A3936207261772F39303030300A613D666D74703A39362073616D706C696E673D59436243722D343A323A323B2077696474683D343B206865696768743D323B2065786163746672616D65726174653D36303B2064657074683D383B20636F6C6F72696D657472793D42543730393B20504D3D3231313047504D3B2053534E3D5354323131302D32303A323031370A000000000000000000001C80E00001000003840000000100000008000000008010801180128013";

/// The file of *received-capture*.
const RECEIVER: &str =
    "53323052435630310008000400020000003C000000016000000000000100000384018010801101801280130000";

/// *picture-file*, and *sent-capture* of it.
const PICTURE: &str =
    "53323050494330310008000400020000003C0000000180108011801280138014801580168017";

const SENT: &str =
    "53323043415030320000000000000000000000002A80E000000000000000000001000000080000800000080001000080108011801280138014801580168017";

/// The file of *merge-two-halves*' receiver.
const MERGED: &str = "53323052435630310008000400020000003C000000016000000000000100000384\
    0180108011018012801301801480150180168017";

/// A capture of version 02 with an empty text and one record by A, of moment 0 and 42 octets:
/// *sender-sizes*' datagram, whose number is 1.
const PROCESSED: &str = "5332304341503032000000000000000000000000\
    2A80E0000100000384000000010000000800008000000800010000\
    80108011801280138014801580168017";

const SENDING: Sending = Sending {
    payload_type: 96,
    first: 0,
    base: 0,
    ssrc: 1,
    max_octets: 42,
    paths: Paths::OnlyA,
};

/// *processed*.
const PROCESSING: Processing<'static> = Processing {
    job: b"gain:4096",
    timestamp: 900,
    fill: b"16,128,128",
    stamp: STAMP,
    max_octets: 42,
};

/// A run of an engine: what it reads and writes in digits, what it prints, and the least number of
/// growths that it takes. `merge` reads one file twice.
type Case = (Engine, &'static str, &'static str, &'static [u8], u64);

const RUNS: [Case; 5] = [
    (Engine::Migrate, CAPTURE, MIGRATED, b"records 1\n", 3),
    (
        Engine::Receive,
        CAPTURE,
        RECEIVER,
        b"delivered 1\nframe 900 present 8 missing 8 contested 0\n",
        3,
    ),
    (Engine::Send, PICTURE, SENT, b"sent 1\n", 3),
    (
        Engine::Merge,
        RECEIVER,
        RECEIVER,
        b"frame 900 present 8 missing 8 contested 0\n",
        3,
    ),
    (Engine::Process, MERGED, PROCESSED, b"sent 1\n", 4),
];

/// The sinks of a run.
#[derive(Drop)]
struct Sinks {
    written: MemorySink,
    printed: MemorySink,
    told: MemorySink,
}

/// A source of a file, which gives seven octets a call.
fn source(global: Global, file: &[u8]) -> Result<MemorySource, AllocError> {
    Ok(MemorySource::new(Vec::from_slice(global, file)?, 7, 0))
}

/// A sink of seven octets a call that holds nothing yet.
fn sink(global: Global) -> Result<MemorySink, AllocError>
    ensures { IfOk result (λ s. s.held ≡ []) }
{
    Ok(MemorySink::new(Vec::with_capacity(global, 4096)?, 7, 0))
}

fn migrate<A: Allocator + Copy>(
    global: Global,
    alloc: A,
    file: &[u8],
    to: &mut Sinks,
) -> Result<u8, AllocError> {
    let (mut text, mut capture) = (source(global, SDP)?, source(global, file)?);
    Ok(run_migrate(
        alloc,
        &mut text,
        &mut capture,
        &mut to.written,
        &mut to.printed,
        &mut to.told,
    ))
}

fn receive<A: Allocator + Copy>(
    global: Global,
    alloc: A,
    file: &[u8],
    to: &mut Sinks,
) -> Result<u8, AllocError> {
    let wanted = Wanted {
        window: b"900",
        ssrc: b"any",
        tells_refusals: false,
    };
    Ok(run_receive(
        alloc,
        wanted,
        &mut Some(source(global, SDP)?),
        &mut [source(global, file)?],
        &mut to.written,
        &mut to.printed,
        &mut to.told,
    ))
}

fn send<A: Allocator + Copy>(
    global: Global,
    alloc: A,
    file: &[u8],
    to: &mut Sinks,
) -> Result<u8, AllocError>
    requires { to.old.written.held ≡ [] }
{
    Ok(run_send(
        alloc,
        SENDING,
        &mut None,
        &mut [source(global, file)?],
        &mut to.written,
        &mut to.printed,
        &mut to.told,
    ))
}

fn merge<A: Allocator + Copy>(
    global: Global,
    alloc: A,
    file: &[u8],
    to: &mut Sinks,
) -> Result<u8, AllocError> {
    let (mut left, mut right) = (source(global, file)?, source(global, file)?);
    Ok(run_merge(
        alloc,
        &mut left,
        &mut right,
        &mut to.written,
        &mut to.printed,
        &mut to.told,
    ))
}

fn process<A: Allocator + Copy>(
    global: Global,
    alloc: A,
    file: &[u8],
    to: &mut Sinks,
) -> Result<u8, AllocError> {
    Ok(run_process(
        alloc,
        PROCESSING,
        &mut [source(global, file)?],
        &mut None,
        &mut to.written,
        &mut to.printed,
        &mut to.told,
    ))
}

/// A run of an engine over an allocator: its status and its sinks.
fn run<A: Allocator + Copy>(
    engine: Engine,
    global: Global,
    alloc: A,
    file: &[u8],
) -> Result<(u8, Sinks), AllocError> {
    let mut to = Sinks {
        written: sink(global)?,
        printed: sink(global)?,
        told: sink(global)?,
    };
    let status = match engine {
        Engine::Migrate => migrate(global, alloc, file, &mut to)?,
        Engine::Receive => receive(global, alloc, file, &mut to)?,
        Engine::Send => send(global, alloc, file, &mut to)?,
        Engine::Merge => merge(global, alloc, file, &mut to)?,
        Engine::Process => process(global, alloc, file, &mut to)?,
    };
    Ok((status, to))
}

/// A run whose growths are refused.
#[derive(Clone, Copy)]
struct Growing(Case);

impl Wanting for Growing {
    /// A run that wants memory has written and printed a first part of what it is to.
    fn answer(&self, global: Global, refusing: &Refusing<Global>) -> Result<Option<bool>, Fail> {
        let Growing((engine, read, wanted, text, _)) = *self;
        let (file, wanted) = (hex::decode(global, read)?, hex::decode(global, wanted)?);
        // A growth is also that of the list of captures that `receive` is given
        let Ok((status, to)) = run(engine, global, refusing, &file) else {
            return Ok(None);
        };
        let (written, printed, told) = (to.written.held(), to.printed.held(), to.told.held());
        if status == 4 && told == MEMORY {
            let are_first = wanted.starts_with(written) && text.starts_with(printed);
            return Ok(if are_first { None } else { Some(false) });
        }
        let is_silent = status == 0 && told.is_empty();
        Ok(Some(is_silent && written == wanted.as_slice() && printed == text))
    }
}

#[test]
fn each_growth_refused(rt: HostRuntime) -> Result<(), Fail> {
    for case in RUNS {
        met(&rt, grows(rt.alloc(), &Growing(case), case.4)?);
    }
    Ok(())
}
