//! Pictures whose runs can be written into packets, however their samples are kept.
ghost use Rattle.std.specs.Prelude.{◌≡◌, ◌≤◌, ◌+◌, ◌++◌, length, take, drop};
ghost use Rattle.st_format.specs.Picture.{IsPicture, Values};
ghost use Rattle.packet_plan.specs.Text.{HasHead, run_octets};

use crate::run::PacketRun;
use crate::writing::{copy_run, write_run};
use pgroup_pack::PackedPicture;
use st_format::{Format, Picture};
use std::alloc::Allocator;

/// A picture whose runs can be written into packets: its samples may be numbers, as a [`Picture`]
/// has them, or packed octets, as a [`PackedPicture`] keeps them.
pub trait Raster {
    /// The picture's values, however they are kept.
    ghost values: { Self → Values };

    /// The picture's format: a plan that it is sent by was made for that.
    fn format(&self) -> Format
        ensures value { result ≡ (values self.now).format }
        ensures whole { IsPicture (values self.now) };

    /// Writes the octets of a run behind the first `at`, and answers where they end. The octets
    /// behind them stay.
    ///
    /// The run lies in the picture, and `buf` has room for its octets.
    fn write_run(&self, run: PacketRun, buf: &mut [u8], at: usize) -> usize
        requires room { at + length (run_octets (values self.now) run) ≤ length buf.old }
        requires head { HasHead (values self.now).format run }
        ensures length { length buf.new ≡ length buf.old }
        ensures value { result ≡ at + length (run_octets (values self.now) run) }
        ensures written { take result buf.new
            ≡ take at buf.old ++ run_octets (values self.now) run }
        ensures behind { drop result buf.new ≡ drop result buf.old };
}

impl<A: Allocator> Raster for Picture<A> {
    ghost values = { λ p. p };

    fn format(&self) -> Format {
        Picture::format(self)
    }

    fn write_run(&self, run: PacketRun, buf: &mut [u8], at: usize) -> usize {
        write_run(buf, at, self, run)
    }
}

impl<A: Allocator> Raster for PackedPicture<A> {
    ghost values = { λ p. p };

    fn format(&self) -> Format {
        PackedPicture::format(self)
    }

    fn write_run(&self, run: PacketRun, buf: &mut [u8], at: usize) -> usize {
        copy_run(buf, at, self, run)
    }
}
