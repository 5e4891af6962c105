//! What comes of datagrams by each of two paths, and captures of it, written by hand.
use crate::camera::HEAD;
use crate::fault::Fault;
use crate::numbers::{Bursts, number};
use byteorder::{BigEndian, ByteOrder};
use st_format::MOST_DATAGRAM;
use std::alloc::Global;

/// How many octets of a datagram lie between two that differ, where the paths disagree: 25 pgroups
/// of 4:2:2 at 10 bits, so a hundred samples.
const BETWEEN: usize = 125;

/// What comes by a path in a step: the number of a datagram, and whether it comes twice. Now and
/// then two are exchanged.
pub fn comes(seed: u64, step: usize, bursts: &mut Bursts, count: usize) -> Option<(usize, bool)> {
    let drawn = number(seed, (step / 2) as u64);
    let place = if drawn % 97 == 0 { step ^ 1 } else { step };
    if bursts.next() || place >= count {
        return None;
    }
    Some((place, drawn % 389 == 1))
}

/// Writes a capture by hand.
#[derive(Drop)]
pub struct Records {
    octets: Vec<u8>,
    moment: u64,
}

impl Records {
    pub fn new(alloc: Global, text: &[u8], room: usize) -> Result<Records, Fault> {
        if text.len() > MOST_DATAGRAM {
            return Err(Fault);
        }
        let mut octets = Vec::with_capacity(alloc, room)?;
        octets.extend_from_slice(b"S20CAP02")?;
        octets.extend_from_slice(&(text.len() as u16).to_be_bytes())?;
        octets.extend_from_slice(text)?;
        Ok(Records { octets, moment: 0 })
    }

    /// A record of a datagram, or of one that differs from what was sent.
    pub fn put(&mut self, path: u8, datagram: &[u8], differs: bool) -> Result<(), Fault> {
        if datagram.len() > MOST_DATAGRAM {
            return Err(Fault);
        }
        let mut head = [path; HEAD];
        BigEndian::write_u64(&mut head[1..9], self.moment);
        BigEndian::write_u16(&mut head[9..], datagram.len() as u16);
        self.octets.extend_from_slice(&head)?;
        let from = self.octets.len();
        self.octets.extend_from_slice(datagram)?;
        self.moment = self.moment.wrapping_add(1);
        if differs {
            change(&mut self.octets, from);
        }
        Ok(())
    }

    /// The octets of the capture, with all records that were put.
    pub fn into_octets(self) -> Vec<u8> {
        self.octets
    }
}

/// Changes a bit of each hundredth sample, of a datagram that begins at a place.
fn change(octets: &mut [u8], from: usize) {
    let mut at = from.saturating_add(31);
    for _ in 0..octets.len() {
        if at >= octets.len() {
            return;
        }
        octets[at] ^= 4;
        at = at.saturating_add(BETWEEN);
    }
}
