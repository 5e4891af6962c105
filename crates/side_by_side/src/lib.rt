//! Captures and recordings read side by side, as one source of datagrams: always from the file
//! whose next datagram has the oldest timestamp. So recordings of the two paths of a stream are one
//! stream, whatever the skew between them.
#![tactic(auto)]

mod choosing;
mod giving;
mod going;
pub mod laws;
mod side;
mod sides;
mod steering;

pub use going::Going;
pub use side::Side;
pub use sides::SideBySide;
pub use steering::Steering;
