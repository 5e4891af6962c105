//! Pictures whose values have no order, and their datagrams.
use crate::fault::Fault;
use packet_plan::{Plan, Stamp, send_frame};
use st_format::memory::MemoryDatagrams;
use st_format::{DatagramSink, Format, Picture};
use std::alloc::Global;

/// What each picture is sent with.
pub const STAMP: Stamp = Stamp {
    payload_type: 96,
    first: 1,
    timestamp: 900,
    ssrc: 1,
};

/// Which samples of a picture are changed: each so manyth (none at 0), in such a part of the rows
/// and of each row.
#[derive(Clone, Copy)]
pub struct Change(pub usize, pub usize);

impl Change {
    fn is_at(self, number: usize, format: &Format) -> bool {
        let row = format.row_samples().max(1);
        let part = self.1.max(1);
        let is_within = number % row < row / part
            && number / row <= format.height() as usize / part;
        is_within && self.0 > 0 && number % self.0 == 0
    }
}

/// A picture, its plan, and its datagrams.
#[derive(Drop)]
pub struct Stream {
    pub format: Format,
    pub picture: Picture,
    pub plan: Plan,
    pub datagrams: MemoryDatagrams,
}

impl Stream {
    /// The picture, with some samples changed, in packets of at most so many octets.
    pub fn new(alloc: Global, format: Format, size: u32, change: Change) -> Result<Stream, Fault> {
        let picture = picture(alloc, format, change)?;
        let plan = Plan::new(alloc, format, size).ok().ok_or(Fault)?;
        let mut slots = Vec::with_capacity(alloc, plan.len() as usize)?;
        for _ in 0..plan.len() {
            if slots
                .push(Vec::with_capacity(alloc, size as usize)?)
                .is_err()
            {
                return Err(Fault);
            }
        }
        let mut datagrams = MemoryDatagrams::new(slots, 0);
        send_all(&plan, &picture, &mut datagrams)?;
        Ok(Stream {
            format,
            picture,
            plan,
            datagrams,
        })
    }

    /// The octets of all datagrams in one list, for what is compared with a copy of them.
    pub fn octets(&self, alloc: Global) -> Result<Vec<u8>, Fault> {
        let mut octets = Vec::new(alloc);
        for datagram in self.datagrams.taken() {
            octets.extend_from_slice(datagram.as_slice())?;
        }
        Ok(octets)
    }
}

/// A picture of values without order, the upper bits of a linear congruential generator; the last
/// bit of those that are changed is turned.
pub fn picture(alloc: Global, format: Format, change: Change) -> Result<Picture, Fault> {
    let mut picture = Picture::new(alloc, format, [0, 0, 0]).ok().ok_or(Fault)?;
    let mut state = 1u64;
    for row in 0..format.height() {
        for column in 0..format.width() {
            for component in 0..3u8 {
                state = state
                    .wrapping_mul(6_364_136_223_846_793_005)
                    .wrapping_add(1_442_695_040_888_963_407);
                let value = (state >> 48) as u16;
                set(&mut picture, (row, column, component), value, change);
            }
        }
    }
    Ok(picture)
}

/// Sets a sample to a value's last bits, where there is such a position.
fn set(picture: &mut Picture, place: (u32, u32, u8), value: u16, change: Change) {
    let (row, column, component) = place;
    let format = picture.format();
    let most = format.max_value();
    if format.has_position(row, column, component) {
        let number = format.sample_number(row, column, component);
        let value = (value ^ u16::from(change.is_at(number, &format))) & most;
        if value <= most {
            picture.set(row, column, component, value);
        }
    }
}

/// Sends each packet of a picture, by a plan of at most 9000 octets a packet.
pub fn send_all<K: DatagramSink>(
    plan: &Plan,
    picture: &Picture,
    sink: &mut K,
) -> Result<(), Fault> {
    let mut buf = [0; 9000];
    let has_room = plan.max_octets() as usize <= buf.len();
    if !has_room || !picture.format().same(&plan.format()) {
        return Err(Fault);
    }
    send_frame(plan, picture, STAMP, &mut buf, sink)
        .ok()
        .ok_or(Fault)?;
    Ok(())
}
