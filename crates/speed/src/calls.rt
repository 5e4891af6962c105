//! The calls that are measured, and what they work on.
use crate::fault::Fault;
use crate::streams::{Stream, send_all};
use devices::Discard;
use frame_assembly::{Base, Frame};
use frame_report::write_report;
use path_receiver::Receiver;
use st_format::{Format, Path, Picture};
use std::alloc::Global;
use std::time::Instant;

/// A call, or a copy of the octets that it works on.
#[derive(Clone, Copy)]
pub enum Call {
    /// All octets of the datagrams.
    Copy,
    /// Into a sink that keeps nothing.
    Send,
    /// By A, into a frame of which nothing is known.
    TakeFirst,
    /// By B, where all datagrams came by A.
    TakeSecond,
    /// By B, where each hundredth datagram didn't come by A.
    TakeLost,
    /// Another picture by B: each so manyth sample differs, in such a part of the rows and of each
    /// row.
    Differ(usize, usize),
    /// Of a whole picture, into a frame of which nothing is known.
    MergeBlank,
    /// Of a whole picture, with itself.
    MergeEqual,
    Counts,
    Settle,
    TryCopy,
    /// The report of a frame of which each second datagram came, into a sink that keeps nothing.
    Report,
}

/// What a call makes in memory that the allocator gives, and what is let go once the clock was
/// read.
#[derive(Drop)]
pub enum Made {
    Nothing,
    Picture(Picture),
    Frame(Frame),
}

/// What the calls work on, made once. The spare frame is exchanged for the receiver's where its
/// window slides.
#[derive(Drop)]
pub struct Room {
    pub octets: Vec<u8>,
    copy: Vec<u8>,
    receiver: Receiver,
    spare: Frame,
    whole: Receiver,
}

impl Room {
    pub fn new(alloc: Global, stream: &Stream) -> Result<Room, Fault> {
        let octets = stream.octets(alloc)?;
        let mut whole = open(alloc, stream.format)?;
        take(&mut whole, Path::A, stream, 0)?;
        Ok(Room {
            copy: Vec::from_elem(alloc, 255u8, octets.len())?,
            octets,
            receiver: open(alloc, stream.format)?,
            spare: Frame::new(alloc, stream.format)?,
            whole,
        })
    }

    /// The nanoseconds of a call's best round. The first stream comes by A, and the second by B.
    pub fn best(
        &mut self,
        rt: &HostRuntime,
        call: Call,
        streams: (&Stream, &Stream),
        rounds: u32,
    ) -> Result<u64, Fault> {
        let mut best = u64::MAX;
        for _ in 0..rounds {
            self.prepare(call, streams.0)?;
            let start = Instant::now(rt)?;
            let made = self.make(rt.alloc(), call, streams)?;
            let spent = start.elapsed(rt)?.as_nanos();
            best = best.min(u64::try_from(spent).unwrap_or(u64::MAX));
            drop(made);
        }
        Ok(best)
    }

    /// What comes before a call and is not measured. The receiver's frame is first made blank.
    fn prepare(&mut self, call: Call, stream: &Stream) -> Result<(), Fault> {
        for next in [901, 900] {
            if self.receiver.slide(next, &mut self.spare).is_err() {
                return Err(Fault);
            }
        }
        match call {
            Call::TakeSecond | Call::Differ(_, _) => {
                take(&mut self.receiver, Path::A, stream, 0)
            }
            Call::TakeLost => take(&mut self.receiver, Path::A, stream, 100),
            Call::Report => take(&mut self.receiver, Path::A, stream, 2),
            Call::MergeEqual => self.merge(),
            _ => Ok(()),
        }
    }

    fn make(
        &mut self,
        alloc: Global,
        call: Call,
        streams: (&Stream, &Stream),
    ) -> Result<Made, Fault> {
        match call {
            Call::Copy => {
                self.copy.clear();
                self.copy.extend_from_slice(&self.octets)?;
            }
            Call::Send => send_all(&streams.0.plan, &streams.0.picture, &mut Discard::new())?,
            Call::TakeFirst => take(&mut self.receiver, Path::A, streams.0, 0)?,
            Call::TakeSecond | Call::TakeLost | Call::Differ(_, _) => {
                take(&mut self.receiver, Path::B, streams.1, 0)?
            }
            Call::MergeBlank | Call::MergeEqual => self.merge()?,
            Call::Report => write_report(&self.receiver, &mut Discard::new())
                .ok()
                .ok_or(Fault)?,
            _ => return look(alloc, call, self.whole.frame(900).ok_or(Fault)?),
        }
        Ok(Made::Nothing)
    }

    fn merge(&mut self) -> Result<(), Fault> {
        self.receiver.merge(&self.whole).ok().ok_or(Fault)
    }
}

/// A call on a whole frame, and what it makes, so that its letting go isn't timed.
fn look(alloc: Global, call: Call, frame: &Frame) -> Result<Made, Fault> {
    match call {
        Call::Settle => {
            let base = Base::<Global>::Fill([0, 0, 0]);
            Ok(Made::Picture(frame.settle(alloc, base)?))
        }
        Call::TryCopy => Ok(Made::Frame(frame.try_copy(alloc)?)),
        _ if frame.counts().missing > 0 => Err(Fault),
        _ => Ok(Made::Nothing),
    }
}

/// A receiver of payload type 96, source 1 and timestamp 900.
pub fn open(alloc: Global, format: Format) -> Result<Receiver, Fault> {
    Receiver::open(alloc, format, 96, Some(1), &[900])
        .ok()
        .ok_or(Fault)
}

/// Takes all datagrams by a path, or all but each so manyth (none is lost at 0).
pub fn take(
    receiver: &mut Receiver,
    path: Path,
    stream: &Stream,
    step: usize,
) -> Result<(), Fault> {
    for (place, datagram) in stream.datagrams.taken().iter().enumerate() {
        let is_lost = step > 0 && place % step == step / 2;
        if !is_lost && receiver.take(path, datagram.as_slice()).is_err() {
            return Err(Fault);
        }
    }
    Ok(())
}
