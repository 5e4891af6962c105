//! A picture whose pgroups are packed, as they are sent.
ghost use Rattle.std.specs.Prelude.{◌≡◌, length};
ghost use Rattle.pgroup_pack.specs.Packing.{Agree, unpacked_picture};
ghost use Rattle.st_format.specs.Pgroup.{bits_of};
ghost use Rattle.st_format.specs.Picture.{IsPicture};
ghost use Rattle.st_format.specs.Position.{sample_count};
ghost use Rattle.st_format.specs.Samples.{Spells};

use st_format::Format;
use std::alloc::{Allocator, Global};
use std::marker::Model;

/// A picture that is kept as the octets of all its pgroups, in raster order and in the order
/// in which they are sent (RFC 4175, 4.3). Contracts see it as the raster of values that these
/// octets spell, as they see a picture whose samples are numbers.
#[derive(Drop)]
pub struct PackedPicture<A: Allocator = Global> {
    format: Format,
    octets: Vec<u8, A>,
}

impl<A: Allocator> Model for PackedPicture<A> {
    ghost use Rattle.std.specs.Prelude.{length};
    ghost use Rattle.pgroup_pack.specs.Packing.{Agree, unpacked_picture};
    ghost use Rattle.st_format.specs.Picture.{Values};
    ghost use Rattle.st_format.specs.Position.{sample_count};

    ghost Value = { Values };

    ghost view = { λ p. unpacked_picture p.format p.octets.items };

    ghost invariant = { λ p. Agree p.format (length p.octets.items) (sample_count p.format) };
}

impl<A: Allocator> PackedPicture<A> {
    /// The picture that these octets spell: they have as many bits as all samples of the format. No
    /// memory is taken.
    pub fn from_octets(format: Format, octets: Vec<u8, A>) -> PackedPicture<A>
        requires { Agree format (length octets.items) (sample_count format) }
        ensures value { result ≡ unpacked_picture format octets.items }
        ensures whole { IsPicture result }
    {
        PackedPicture { format, octets }
    }

    /// The format of its raster, whose pgroups its octets are.
    pub fn format(&self) -> Format
        ensures value { result ≡ self.now.format }
        ensures whole { IsPicture self.now }
    {
        self.format
    }

    /// All its octets, which spell its values.
    pub fn octets(&self) -> &[u8]
        ensures spelled { Spells (bits_of self.now.format.depth) result.now self.now.samples }
        ensures whole { IsPicture self.now }
    {
        &self.octets
    }

    /// All its octets, given up. No memory is taken.
    pub fn into_octets(self) -> Vec<u8, A>
        ensures spelled { Spells (bits_of self.format.depth) result.items self.samples }
        ensures whole { IsPicture self }
    {
        self.octets
    }
}
