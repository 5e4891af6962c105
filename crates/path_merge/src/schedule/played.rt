//! What came of a schedule.

use frame_assembly::Frame;
use path_receiver::Receiver;
use std::alloc::{Allocator, Global};

/// A frame that a receiver handed out.
#[derive(Drop)]
pub struct Handed<A: Allocator = Global> {
    /// The number of the receiver, from 0.
    pub receiver: u8,
    /// The timestamp that left its window, in 90 kHz ticks.
    pub timestamp: u32,
    /// What it held of that timestamp.
    pub frame: Frame<A>,
}

/// What came of a schedule: the frames that were handed out, in order, and the receivers.
#[derive(Drop)]
pub struct Played<A: Allocator = Global> {
    pub handed: Vec<Handed<A>, A>,
    pub receivers: Vec<Receiver<A>, A>,
}
