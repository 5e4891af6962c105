//! What a sample without a value gets.
use st_format::Picture;
use std::alloc::{Allocator, Global};

/// What a frame is settled with: it has a value for each sample that is missing or contested.
///
/// A fill holds no memory, so where nothing else tells the allocator it is written
/// `Base::<Global>::Fill(..)`. The allocator is a parameter of its own, so that a frame may be
/// settled over a picture in other memory.
#[derive_where(Clone, Copy)]
pub enum Base<'a, A: Allocator = Global> {
    /// The value of each component (Y, Cb, Cr or R, G, B).
    Fill([u16; 3]),
    /// A picture of the frame's format: its value at the sample's position.
    Hold(&'a Picture<A>),
}
