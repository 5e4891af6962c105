//! Reading a picture's file as it is: its pgroups stay packed.
ghost use Rattle.std.specs.Prelude.{◌≡◌, ℕ, List, Some, length, IfErr, IfOk, MatchResult, OnOk};
ghost use Rattle.std.specs.Io.KnownBytes.{IsAtEnd};
ghost use Rattle.pgroup_pack.specs.Packing.{Agree};
ghost use Rattle.st_format.specs.Device.{AreOctets, TellsOctets};
ghost use Rattle.st_format.specs.Fields.{fields_of};
ghost use Rattle.st_format.specs.History.{GrewFrom, IsRead};
ghost use Rattle.st_format.specs.Pgroup.{bits_of};
ghost use Rattle.st_format.specs.Picture.{IsPicture, Values};
ghost use Rattle.st_format.specs.Position.{sample_count};
ghost use Rattle.st_format.specs.Samples.{values_in};
ghost use Rattle.media_file.specs.Faults.{CountsDevice, IfContent, IsMachine};
ghost use Rattle.media_file.specs.Fields.{Fails, GaveFault};
ghost use Rattle.st_format.specs.Given.{GaveOctets, GaveValue, GaveWhole, Takes};
ghost use Rattle.media_file.specs.PictureFaults.{IsPictureFault};
ghost use Rattle.media_file.specs.PictureFile.{IsPictureFile, picture_walk, raster_at, shown_of};

use crate::block::read_format;
use crate::fault::FileFault;
use crate::front::{PICTURE, read_end, read_field};
use crate::picture_reading::read_version_one;
use pgroup_pack::PackedPicture;
use st_format::{ByteSource, Format};
use std::alloc::Allocator;

/// Reads a picture's file, of version 01, and leaves its pgroups packed. They come into the
/// memory of `room`, whatever that holds: only where it has too little memory is more taken. So the
/// memory of one picture serves for the next.
///
/// # Errors
///
/// As of [`read_picture`](crate::read_picture): the first fault in the order of the octets, or one
/// of the memory or the device before it.
pub fn read_packed_picture<A: Allocator, S: ByteSource>(
    source: &mut S,
    room: Vec<u8, A>,
) -> Result<PackedPicture<A>, FileFault>
    ensures whole { IfOk result (λ p. IsPicture p) }
    ensures counted { CountsDevice (S.failures source.old) (S.failures source.new) result }
    // What is read is the file of the picture that is answered, all of it.
    ensures found { IfOk result (λ p. (octets : List ℕ) → S.to_give source.old ≡ Some octets
        → IsPictureFile octets p × IsAtEnd (S.to_give source.new)) }
    // A fault of the content is one whose condition holds of the octets.
    ensures wrong { IfErr result (λ f. (octets : List ℕ) → S.to_give source.old ≡ Some octets
        → AreOctets octets → IfContent f (IsPictureFault f octets)) }
    // What is a picture's file is read as that picture, unless the memory or the device fails.
    ensures only { (p : Values) (octets : List ℕ)
        → S.to_give source.old ≡ Some octets → IsPictureFile octets p
        → MatchResult result (λ q. shown_of q ≡ shown_of p) IsMachine }
    // The same by the walk from the left, for the walks that go on from it.
    ensures read { IfOk result (λ p. Takes picture_walk
        (S.to_give source.old) (S.to_give source.new) (shown_of p)) }
    ensures fault { IfErr result (λ f. Fails picture_walk (S.to_give source.old) f) }
    // The same of what was given, of every device: all of it was read, up to the source's end.
    ensures gave { IfOk result (λ p. (octets : List ℕ)
        → IsRead (S.gave source.old) (S.gave source.new) (S.ended source.new) octets
        → IsPictureFile octets p) }
    ensures ended { OnOk result (S.ended source.new) }
    ensures gave_wrong { IfErr result (λ f. (octets : List ℕ)
        → IsRead (S.gave source.old) (S.gave source.new) (S.ended source.new) octets
        → AreOctets octets → IfContent f (IsPictureFault f octets)) }
    ensures gave_only { (p : Values) (octets : List ℕ)
        → IsRead (S.gave source.old) (S.gave source.new) (S.ended source.new) octets
        → IsPictureFile octets p
        → MatchResult result (λ q. shown_of q ≡ shown_of p) IsMachine }
    ensures grown { GrewFrom (S.gave source.old) (S.gave source.new) }
{
    read_all(source, room)
}

/// Reads the front, the pgroups, and that nothing is behind them.
fn read_all<A: Allocator, S: ByteSource>(
    source: &mut S,
    room: Vec<u8, A>,
) -> Result<PackedPicture<A>, FileFault>
    ensures whole { IfOk result (λ p. IsPicture p) }
    ensures read { IfOk result (λ p. Takes picture_walk
        (S.to_give source.old) (S.to_give source.new) (shown_of p)) }
    ensures fault { IfErr result (λ f. Fails picture_walk (S.to_give source.old) f) }
    ensures gave { IfOk result (λ p. GaveWhole picture_walk
        (S.gave source.old) (S.gave source.new) (S.ended source.new) (shown_of p)) }
    ensures gave_wrong { IfErr result (λ f. GaveFault picture_walk
        (S.gave source.old) (S.gave source.new) (S.ended source.new) f) }
    ensures bytes { OnOk result (GaveOctets (S.gave source.old) (S.gave source.new)) }
    ensures octets { OnOk result (TellsOctets (S.to_give source.old)) }
    ensures counted { CountsDevice (S.failures source.old) (S.failures source.new) result }
{
    read_version_one(source, PICTURE)?;
    let format = read_format(source)?;
    let octets = read_groups(source, &format, room)?;
    read_end(source)?;
    Ok(PackedPicture::from_octets(format, octets))
}

/// Reads all pgroups of a raster at once: a short file that announces a large picture costs that
/// memory until it is refused.
fn read_groups<A: Allocator, S: ByteSource>(
    source: &mut S,
    format: &Format,
    mut room: Vec<u8, A>,
) -> Result<Vec<u8, A>, FileFault>
    ensures size { IfOk result (λ v.
        Agree format.now (length v.items) (sample_count format.now)) }
    ensures read { IfOk result (λ v. Takes (raster_at (fields_of format.now))
        (S.to_give source.old) (S.to_give source.new)
        (values_in (bits_of format.now.depth) v.items)) }
    ensures fault { IfErr result (λ f.
        Fails (raster_at (fields_of format.now)) (S.to_give source.old) f) }
    ensures gave { IfOk result (λ v. GaveValue (raster_at (fields_of format.now))
        (S.gave source.old) (S.gave source.new) (values_in (bits_of format.now.depth) v.items)) }
    ensures gave_wrong { IfErr result (λ f. GaveFault (raster_at (fields_of format.now))
        (S.gave source.old) (S.gave source.new) (S.ended source.new) f) }
    ensures bytes { OnOk result (GaveOctets (S.gave source.old) (S.gave source.new)) }
    ensures counted { CountsDevice (S.failures source.old) (S.failures source.new) result }
{
    room.resize(raster_octets(format), 0)?;
    read_field(source, &mut room)?;
    Ok(room)
}

/// How many octets all pgroups of a raster take: they are whole, so their bits are whole octets.
fn raster_octets(format: &Format) -> usize
    ensures { Agree format.now result (sample_count format.now) }
{
    format.depth().bits() as usize * format.sample_count() / 8
}
