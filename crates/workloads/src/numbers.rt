//! Numbers without order, what is lost by them, and the digest of results.
ghost use Rattle.std.specs.Prelude.{◌≡◌, ◌≤◌, length};

use crate::fault::Fault;
use byteorder::{ByteOrder, LittleEndian};
use std::alloc::Global;

/// The number of an index in the list of a seed (SplitMix64: Steele, Lea and Flood, 2014).
pub fn number(seed: u64, index: u64) -> u64 {
    let sum = seed.wrapping_add(index.wrapping_mul(0x9E37_79B9_7F4A_7C15));
    let first = (sum ^ (sum >> 30)).wrapping_mul(0xBF58_476D_1CE4_E5B9);
    let second = (first ^ (first >> 27)).wrapping_mul(0x94D0_49BB_1331_11EB);
    second ^ (second >> 31)
}

/// Octets without order, of which pictures are cut: a piece of them costs a copy alone.
#[derive(Drop)]
pub struct Noise {
    octets: Vec<u8>,
}

/// How many places a piece may begin at.
const PLACES: usize = 65_536;

/// The most octets of a piece.
pub const PIECE: usize = 16_384;

impl Noise {
    pub fn new(alloc: Global, seed: u64) -> Result<Noise, Fault> {
        let mut octets = Vec::with_capacity(alloc, PLACES + PIECE)?;
        for word in 0..(PLACES + PIECE) as u64 / 8 {
            octets.extend_from_slice(&number(seed, word).to_le_bytes())?;
        }
        Ok(Noise { octets })
    }

    /// A piece, at a place that a number says.
    pub fn piece(&self, drawn: u64) -> &[u8] {
        let from = (drawn % PLACES as u64) as usize;
        if from > self.octets.len() {
            return &[];
        }
        &self.octets[from..]
    }
}

/// A digest of all octets that it took, and of where one call's end and the next one's begin.
#[derive(Clone, Copy)]
pub struct Digest(pub u64);

impl Digest {
    /// Takes octets: those of four words side by side, and then what is left.
    pub fn take(&mut self, octets: &[u8]) {
        let blocks = octets.len() / 32;
        let mut sums = [self.0, octets.len() as u64, 1, 2];
        for block in 0..blocks {
            for lane in 0..4usize {
                let at = 32 * block + 8 * lane;
                sums[lane] = mixed(sums[lane], LittleEndian::read_u64(&octets[at..at + 8]));
            }
        }
        let mut sum = 0;
        for part in sums {
            sum = mixed(sum, part);
        }
        for octet in &octets[32 * blocks..] {
            sum = mixed(sum, u64::from(*octet));
        }
        self.0 = sum;
    }

    pub fn take_number(&mut self, number: u64) {
        self.0 = mixed(self.0, number);
    }
}

/// A sum with one more word in it. The multiplier is that of rrmxmx (Pelle Evensen, 2018), which
/// XXH3 has too.
fn mixed(sum: u64, word: u64) -> u64 {
    (sum ^ word)
        .wrapping_mul(0x9FB2_1C65_1E98_DF25)
        .rotate_left(23)
}

/// Which packets of a path are lost: bursts of 1 to 8, about one packet in 120.
#[derive(Clone, Copy)]
pub struct Bursts {
    seed: u64,
    count: u64,
    left: u64,
    is_lost: bool,
}

impl Bursts {
    pub fn new(seed: u64) -> Bursts {
        Bursts {
            seed,
            count: 0,
            left: number(seed, 0) % 300,
            is_lost: false,
        }
    }

    /// Whether the next packet is lost.
    pub fn next(&mut self) -> bool {
        if self.left == 0 {
            self.count = self.count.wrapping_add(1);
            self.is_lost = !self.is_lost;
            let drawn = number(self.seed, self.count);
            self.left = if self.is_lost {
                1 + drawn % 8
            } else {
                200 + drawn % 680
            };
        }
        self.left -= 1;
        self.is_lost
    }
}
