//! The engines of the text over devices that move one octet a call and fail at each of their calls
//! in turn; with each growth refused in turn; and by which writes they print: a line in each, or a
//! page of whole lines. Where one of these fails, those before it stand and nothing else.
use crate::checks::met;
use crate::files::RECEIVER;
use crate::text_runs::{DEVICE, Engine, Failing, MEMORY, REPORT, SOUND, run};
use refusing::Refusing;
use std::alloc::{AllocError, Global};
use std::process::Abort;
use std::test::Fail;
use test_kit::camera::{CAMERA, LINE};
use test_kit::wanting::{Wanting, grows};

/// An engine, what it reads and what it prints.
type Case = (Engine, &'static [u8], &'static [u8]);

/// *contested*'s first two datagrams, and a cell.
const TRACE: Case = (
    Engine::Trace,
    b"format YCbCr-4:2:2 8 4 2 60/1\nopen 96 any 900\n\
    A 80E00001000003840000000100000008000000008010801180128013\n\
    B 80E00001000003840000000100000008000000008020801180128013\n\
    cell 900 0 0 0\n",
    b"kept 1\nkept 1\ncontested\nframe 900 present 7 missing 8 contested 1\n",
);

/// A script with slides and numbers.
const SLIDES: Case = (
    Engine::Trace,
    b"format YCbCr-4:2:2 8 4 2 60/1\nopen 96 any 900,2400\nnumbers 1 4\n\
    A 80E00001000003840000000100000008000000008010801180128013\n\
    B 80E00002000009600000000100000008000000008010801180128013\n\
    A 80E00002000009600000000100000008000100008014801580168017\n\
    slide 2400\nslide 3900\n\
    A 80E00003000003840000000100000008000000008010801180128013\n\
    B 80E0000400000F3C0000000100000008000000008010801180128013\n\
    cell 900 0 0 0\ncell 2400 1 3 0\ncell 3900 1 3 0\n",
    b"kept 1\nkept 2\nkept 2\nrefused slide 1 InWindow\n\
    out 900 present 8 missing 8 contested 0\noutside\nkept 4\nnone\nvalue 23\nmissing\n\
    frame 2400 present 16 missing 0 contested 0\nframe 3900 present 8 missing 8 contested 0\n\
    absent 3 1\n",
);

/// *rehearsal-script*.
const REHEARSAL: Case = (
    Engine::Rehearse,
    b"format YCbCr-4:2:2 8 4 2 60/1\nstamp 96 0 0 1\nmax 40\nwindow 0\nreceivers 2\n\
    picture 80108011801280138014801580168017\npicture 80108011801280138014801580168017\n\
    send\nsend\narrive 0 A 0\nmerge 1 0\narrive 0 B 1\nslide 0 1500\narrive 0 A 1\n",
    b"out 0 0 present 16 missing 0 contested 0\nreceiver 0\n\
    frame 1500 present 0 missing 16 contested 0\nreceiver 1\n\
    frame 0 present 12 missing 4 contested 0\n",
);

/// The report of *contested*'s receiver.
const REPORTED: Case = (Engine::Report, RECEIVER, REPORT);

/// *camera-sdp*, without the end of its line.
fn described() -> Case {
    (Engine::Sdp, CAMERA.as_bytes(), LINE.as_bytes())
}

/// A script of `trace` that is refused once it has printed.
const REFUSED: &[u8] = b"format RGB 8 2 1 1/1\nopen 96 any 900\nA -\nbad\n";

const REFUSED_OUTPUT: &[u8] = b"refused 1 ShortHeader\n";

const TOLD: &[u8] = b"st2110: script 4\n";

/// What a run prints: its text, to which the end of the camera's line comes.
fn printed_of(alloc: Global, case: Case) -> Result<Vec<u8>, AllocError> {
    let mut text = Vec::from_slice(alloc, case.2)?;
    if case.0 == Engine::Sdp {
        text.push(b'\n')?;
    }
    Ok(text)
}

/// Whether a run ends as it should whose source fails at a call, or whose output does. What is read
/// is read whole before anything is printed: a source of n octets, one a call, is called n + 1
/// times, the last time for its end. An output holds what it took before the call that fails.
fn stops(
    alloc: Global,
    case: Case,
    text: &[u8],
    source: u64,
    output: u64,
) -> Result<bool, AllocError> {
    let failing = Failing {
        source,
        output,
        faults: 0,
    };
    let ran = run(alloc, alloc, case.0, case.1, 1, failing)?;
    let octets = output.saturating_sub(1) as usize;
    Ok(if source > case.1.len() as u64 + 1 || octets >= text.len() {
        ran.ended(0, text, b"")
    } else {
        ran.ended(3, &text[..octets], DEVICE)
    })
}

/// Each engine, with a source and an output that fails at each call, or behind the last.
#[test]
fn over_devices_that_fail(rt: HostRuntime) -> Result<(), Fail> {
    for case in [TRACE, REHEARSAL, described(), REPORTED] {
        let text = printed_of(rt.alloc(), case)?;
        for call in 1..case.1.len() as u64 + 3 {
            met(&rt, stops(rt.alloc(), case, &text, call, 0)?);
        }
        for call in 1..text.len() as u64 + 2 {
            met(&rt, stops(rt.alloc(), case, &text, 0, call)?);
        }
    }
    Ok(())
}

/// Where the faults alone fail, status 3 tells it; where none does, the refusal stands.
#[test]
fn faults_that_fail(rt: HostRuntime) -> Result<(), Fail> {
    for call in 0..TOLD.len() + 1 {
        let faults = call as u64;
        let failing = Failing { faults, ..SOUND };
        let ran = run(rt.alloc(), rt.alloc(), Engine::Trace, REFUSED, 1, failing)?;
        let is_so = if call == 0 {
            ran.ended(1, REFUSED_OUTPUT, TOLD)
        } else {
            ran.ended(3, REFUSED_OUTPUT, &TOLD[..call.saturating_sub(1)])
        };
        met(&rt, is_so);
    }
    Ok(())
}

/// A run of an engine, its status, and what it tells of a fault.
#[derive(Clone, Copy)]
struct Wanted(Case, u8, &'static [u8]);

impl Wanting for Wanted {
    /// A run that wants memory prints a first part of its output.
    fn answer(&self, global: Global, refusing: &Refusing<Global>) -> Result<Option<bool>, Fail> {
        let Wanted(case, status, told) = *self;
        let text = printed_of(global, case)?;
        let ran = run(global, refusing, case.0, case.1, 4096, SOUND)?;
        if ran.status == 4 && ran.told() == MEMORY && text.starts_with(ran.printed()) {
            return Ok(None);
        }
        Ok(Some(ran.ended(status, &text, told)))
    }
}

/// A script that is refused at its second line.
const BAD: Case = (Engine::Trace, b"format YCbCr-4:2:2 8 4 2 60/1\nbad\n", b"");

/// Each run, its status, what it tells, and the least number of growths that it takes.
#[test]
fn each_growth_refused(rt: HostRuntime) -> Result<(), Fail> {
    let runs: [(Case, u8, &[u8], u64); 6] = [
        (described(), 0, b"", 3),
        (REHEARSAL, 0, b"", 12),
        (REPORTED, 0, b"", 4),
        (TRACE, 0, b"", 4),
        (SLIDES, 0, b"", 9),
        (BAD, 1, b"st2110: script 2\n", 0),
    ];
    for (case, status, told, least) in runs {
        met(&rt, grows(rt.alloc(), &Wanted(case, status, told), least)?);
    }
    Ok(())
}

/// How many octets a page has at most.
const PAGE: usize = 4096;

const DATAGRAM: &[u8] = b"A 80E00001000003840000000100000008000000008010801180128013\n";

const SCHEDULE: &[u8] = b"format YCbCr-4:2:2 8 4 2 60/1\nstamp 96 0 0 1\nmax 40\nwindow 0\n\
    receivers 2\npicture 80108011801280138014801580168017\nsend\narrive 0 A 0\nmerge 1 0\n\
    slide 0 1500\nslide 0 3000\nslide 0 4500\nslide 1 1500\n";

/// The front of a file of a receiver of a frame, 64 by 52 pixels of 4:2:2 and 8 bits.
const FRONT: &[u8] =
    b"S20RCV01\0\x08\0\x40\0\x34\0\0\0\x3C\0\0\0\x01\x60\0\0\0\0\0\x01\0\0\x03\x84";

/// What an engine reads that prints many lines: a script of `trace` that asks for many samples,
/// slides and asks again, a schedule, or a receiver's file of which each second group is missing.
fn long_input(alloc: Global, engine: Engine) -> Result<Vec<u8>, AllocError> {
    let mut octets = Vec::new(alloc);
    if engine == Engine::Rehearse {
        octets.extend_from_slice(SCHEDULE)?;
    } else if engine == Engine::Trace {
        octets.extend_from_slice(b"format YCbCr-4:2:2 8 4 2 60/1\nopen 96 any 900,2400\n")?;
        octets.extend_from_slice(b"numbers 0 4\n")?;
        for _ in 0..300 {
            octets.extend_from_slice(DATAGRAM)?;
            octets.extend_from_slice(b"cell 900 0 0 0\n")?;
        }
        octets.extend_from_slice(b"slide 3900\nslide 3900\ncell 900 0 0 0\n")?;
    } else {
        octets.extend_from_slice(FRONT)?;
        for _ in 0..832 {
            octets.extend_from_slice(&[1, 5, 6, 7, 8, 0])?;
        }
    }
    Ok(octets)
}

/// How many lines end in a text.
fn line_count(text: &[u8]) -> u64 {
    let mut lines = 0u64;
    for octet in text {
        lines = lines.saturating_add(u64::from(*octet == b'\n'));
    }
    lines
}

/// Whether so many calls are those that write a text: a line each, or pages that are full but for
/// the room of a line, and the last.
fn are_calls(engine: Engine, calls: u64, text: &[u8]) -> bool {
    if engine == Engine::Report {
        let octets = text.len() as u64;
        calls >= octets.div_ceil(4096) && calls <= octets / (4096 - 512) + 1
    } else {
        calls == line_count(text)
    }
}

/// Whether an engine writes lines or pages of lines, and where any of these writes fails, all that
/// it wrote before stands and nothing else.
fn writes_lines(alloc: Global, engine: Engine, least: usize) -> Result<bool, AllocError> {
    let input = long_input(alloc, engine)?;
    let whole = run(alloc, alloc, engine, &input, 1 << 16, SOUND)?;
    let (text, calls) = (whole.printed(), whole.output.calls);
    let are_pages = whole.output.longest <= PAGE && are_calls(engine, calls, text);
    let mut are = text.len() >= least && whole.ended(0, text, b"") && are_pages;
    let mut before = 0;
    for output in 1..=calls {
        let failing = Failing { output, ..SOUND };
        let ran = run(alloc, alloc, engine, &input, 1 << 16, failing)?;
        let held = ran.printed();
        are &= ran.ended(3, held, DEVICE) && ran.output.calls == output;
        are &= text.starts_with(held) && ran.output.are_lines;
        are &= held.len() > before || output == 1 && held.is_empty();
        are &= engine == Engine::Report || line_count(held) == output - 1;
        before = held.len();
    }
    Ok(are)
}

#[test]
fn whole_lines(rt: HostRuntime) -> Result<(), Fail> {
    met(&rt, writes_lines(rt.alloc(), Engine::Trace, 4000)?);
    met(&rt, writes_lines(rt.alloc(), Engine::Rehearse, 200)?);
    met(&rt, writes_lines(rt.alloc(), Engine::Report, 20_000)?);
    Ok(())
}
