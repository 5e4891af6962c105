//! A set of numbers, with each growth refused in turn.
use crate::checks::met;
use recording_counts::NumberSet;
use refusing::Refusing;
use std::alloc::Global;
use std::test::Fail;
use test_kit::wanting::{Wanting, grows};

/// Every other number, up or down.
struct Gaps {
    up: bool,
}

/// How many they are: more than a node of the tree has.
const GAPS: u64 = 60;

impl Gaps {
    /// The number at a place.
    fn at(&self, place: u64) -> u64 {
        let step = if self.up {
            place
        } else {
            GAPS.saturating_sub(place)
        };
        step.saturating_mul(2)
    }

    /// Whether the set has the first ones, and the next one not.
    fn are_kept(&self, set: &NumberSet<&Refusing<Global>>, count: u64) -> bool {
        (0..count).all(|place| set.contains(self.at(place))) && !set.contains(self.at(count))
    }
}

impl Wanting for Gaps {
    fn answer(&self, _: Global, refusing: &Refusing<Global>) -> Result<Option<bool>, Fail> {
        let mut set = NumberSet::new(refusing);
        for place in 0..GAPS {
            match set.insert(self.at(place)) {
                Ok(true) => {}
                Ok(false) => return Ok(Some(false)),
                Err(_) if self.are_kept(&set, place) => return Ok(None),
                Err(_) => return Ok(Some(false)),
            }
        }
        Ok(Some(self.are_kept(&set, GAPS)))
    }
}

/// A set that memory was wanted for is what it was.
#[test]
fn of_gaps(rt: HostRuntime) -> Result<(), Fail> {
    met(&rt, grows(rt.alloc(), &Gaps { up: true }, 2)?);
    met(&rt, grows(rt.alloc(), &Gaps { up: false }, 2)?);
    Ok(())
}
