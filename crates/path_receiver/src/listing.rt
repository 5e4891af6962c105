//! What a receiver holds, one by one: its frames and its refusals.
ghost use Rattle.std.specs.Prelude.{◌≡◌, List, ℕ};
ghost use Rattle.std.specs.Iterator.{YieldsFirst, YieldsFirstBy, item_count};
ghost use Rattle.std.specs.List.{zip};
ghost use Rattle.st_format.specs.Raster.{Raster};
ghost use Rattle.st_format.specs.declared.path.Path.{Path};
ghost use Rattle.path_receiver.specs.declared.answer.Refusal.{Refusal};

use crate::answer::Refusal;
use circular_buffer::Iter;
use frame_assembly::Frame;
use st_format::Path;
use std::alloc::Allocator;
use std::marker::Model;

/// The refusals that a receiver keeps, each with its path, from the oldest on.
/// [`Receiver::refusals`](crate::Receiver::refusals) makes it.
#[derive(Drop)]
pub struct Refusals<'a> {
    rest: Iter<'a, (Path, Refusal)>,
}

impl<'a> Model for Refusals<'a> {
    ghost use Rattle.std.specs.Prelude.{List};
    ghost use Rattle.st_format.specs.declared.path.Path.{Path};
    ghost use Rattle.path_receiver.specs.declared.answer.Refusal.{Refusal};

    // Those that are still to come
    ghost Value = { List (Path × Refusal) };

    ghost view = { λ a. a.rest };
}

impl<'a> Refusals<'a> {
    pub(crate) fn of(rest: Iter<'a, (Path, Refusal)>) -> Refusals<'a>
        ensures { result ≡ rest.entry }
    {
        Refusals { rest }
    }
}

impl<'a> Iterator for Refusals<'a> {
    type Item = (Path, Refusal);

    ghost next_gives = { YieldsFirst (λ refusals. refusals) };

    ghost remaining = { item_count (λ refusals. refusals) };

    fn next(&mut self) -> Option<(Path, Refusal)> {
        match self.rest.next() {
            None => None,
            Some(refusal) => Some(*refusal),
        }
    }
}

/// The frames of a receiver, each with its timestamp, in window order.
/// [`Receiver::frames`](crate::Receiver::frames) makes it.
#[derive(Drop)]
pub struct WindowFrames<'a, A: Allocator> {
    timestamps: &'a [u32],
    frames: &'a [Frame<A>],
}

impl<'a, A: Allocator> Model for WindowFrames<'a, A> {
    ghost use Rattle.std.specs.Prelude.{ℕ, List};
    ghost use Rattle.std.specs.List.{zip};
    ghost use Rattle.st_format.specs.Raster.{Raster};

    // Those that are still to come, each with its timestamp
    ghost Value = { List (ℕ × Raster) };

    ghost view = { λ a. zip a.timestamps.now a.frames.now };
}

impl<'a, A: Allocator> WindowFrames<'a, A> {
    pub(crate) fn of(timestamps: &'a [u32], frames: &'a [Frame<A>]) -> WindowFrames<'a, A>
        ensures { result ≡ zip timestamps.entry.now frames.entry.now }
    {
        WindowFrames { timestamps, frames }
    }
}

impl<'a, A: Allocator> Iterator for WindowFrames<'a, A> {
    type Item = (u32, &'a Frame<A>);

    ghost next_gives = { YieldsFirstBy (λ item. (item.0, item.1.now)) (λ frames. frames) };

    ghost remaining = { item_count (λ frames. frames) };

    fn next(&mut self) -> Option<(u32, &'a Frame<A>)> {
        let timestamps = self.timestamps;
        let frames = self.frames;
        if timestamps.len() == 0 || frames.len() == 0 {
            return None;
        }
        self.timestamps = &timestamps[1..];
        self.frames = &frames[1..];
        Some((timestamps[0], &frames[0]))
    }
}
