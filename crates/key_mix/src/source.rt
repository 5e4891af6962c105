//! An input of a job that is settled some pgroups at a time.
ghost use Rattle.std.specs.Prelude.{◌≡◌};
ghost use Rattle.frame_assembly.specs.Patterns.{IsPatternOf};

use crate::JobInput;
use std::alloc::{Allocator, Global};

/// How many samples the pattern of a base has: those of 64 groups of 12.
const PATTERN: usize = 768;

/// An input, and the pattern of its base, which is made once.
#[derive(Drop)]
pub(crate) struct Source<'a, A: Allocator = Global> {
    pub input: JobInput<'a, A>,
    pub pattern: [u16; PATTERN],
    ghost is_pattern: { IsPatternOf input.base input.frame.now.format.sampling pattern },
}

impl<'a, A: Allocator> Source<'a, A> {
    ghost use Rattle.std.specs.Prelude.{◌≤◌, ◌+◌, ◌*◌, drop, length, take};
    ghost use Rattle.st_format.specs.Pgroup.{pixel_group};
    ghost use Rattle.st_format.specs.Position.{group_count};
    ghost use Rattle.frame_assembly.specs.Settled.{settled_picture};
    ghost use Rattle.key_mix.specs.Sending.{HasBase};

    /// Makes the pattern.
    pub(crate) fn new(input: &JobInput<'a, A>) -> Source<'a, A>
        ensures { result.input ≡ input.now }
    {
        let mut pattern = [0; PATTERN];
        input.frame.base_pattern(input.base, &mut pattern);
        Source {
            input: *input,
            pattern,
        }
    }

    /// The samples of `count` pgroups of the settled picture, from the one of number `first` in
    /// raster order.
    pub(crate) fn settle(&self, first: usize, count: usize, samples: &mut [u16])
        requires base { HasBase self.now.input }
        requires inside { first + count ≤ group_count self.now.input.frame.now.format }
        requires room { length samples.old
            ≡ (pixel_group self.now.input.frame.now.format.sampling
            self.now.input.frame.now.format.depth).samples * count }
        ensures settled { samples.new
            ≡ take ((pixel_group self.now.input.frame.now.format.sampling
            self.now.input.frame.now.format.depth).samples * count)
            (drop ((pixel_group self.now.input.frame.now.format.sampling
            self.now.input.frame.now.format.depth).samples * first)
            (settled_picture self.now.input.frame.now self.now.input.base).samples) }
    {
        self.input
            .frame
            .settle_groups_over(first, count, self.input.base, &self.pattern, samples);
    }
}
