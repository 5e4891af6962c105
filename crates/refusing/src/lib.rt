//! For tests: an allocator that refuses one growth.
//!
//! It stands alone, since its `unsafe impl` rests on inner modules of the kit's own: what the
//! program is built of doesn't.
#![tactic(auto)]

mod allocator;

pub use allocator::Refusing;
