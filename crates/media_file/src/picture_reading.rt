//! Reading a picture's file.
ghost use Rattle.std.specs.Prelude.{◌≡◌, ◌*◌, ◌/◌, ◌%◌, ℕ, List, Some, length, IfErr, IfOk};
ghost use Rattle.std.specs.Prelude.{MatchResult, OnOk};
ghost use Rattle.std.specs.Io.KnownBytes.{IsAtEnd};
ghost use Rattle.pgroup_pack.specs.Packing.{Agree};
ghost use Rattle.st_format.specs.Device.{AreOctets, TellsOctets};
ghost use Rattle.st_format.specs.Fields.{fields_of};
ghost use Rattle.st_format.specs.History.{GrewFrom, IsRead};
ghost use Rattle.st_format.specs.Pgroup.{bits_of};
ghost use Rattle.st_format.specs.Picture.{IsPicture, Values};
ghost use Rattle.media_file.specs.declared.front.Version.TheVariants.{One};
ghost use Rattle.media_file.specs.Faults.{CountsDevice, IfContent, IsMachine, IsOfField};
ghost use Rattle.media_file.specs.Fields.{Fails, GaveFault};
ghost use Rattle.st_format.specs.Given.{GaveOctets, GaveValue, GaveWhole, Takes};
ghost use Rattle.media_file.specs.Fields.{field_at};
ghost use Rattle.media_file.specs.Fronts.{picture_name};
ghost use Rattle.media_file.specs.PictureFaults.{IsPictureFault};
ghost use Rattle.media_file.specs.PictureFile.{GaveSpelled, GivesSpelled, IsPictureFile, one_at};
ghost use Rattle.media_file.specs.PictureFile.{picture_walk, raster_at, shown_of};

use crate::block::read_format;
use crate::fault::FileFault;
use crate::front::{PICTURE, Version, read_end, read_field, read_kind};
use crate::pieces::{PIECE, piece_octets, piece_samples};
use st_format::{ByteSource, Format, Picture};
use std::alloc::Allocator;

/// Reads a picture's file, of version 01. The picture's samples are the one memory that is taken.
///
/// # Errors
///
/// The first fault in the order of the octets, or one of the memory or the device before it:
/// `NoMemory`, `Device`, `BadName`, `BadVersion` (version 02 too), `Truncated`, `BadField`, or
/// `TrailingBytes` where one octet was read behind the last pgroup.
pub fn read_picture<A: Allocator, S: ByteSource>(
    alloc: A,
    source: &mut S,
) -> Result<Picture<A>, FileFault>
    ensures whole { IfOk result (λ p. IsPicture p) }
    ensures counted { CountsDevice (S.failures source.old) (S.failures source.new) result }
    // What is read is the file of the picture that is answered, all of it.
    ensures found { IfOk result (λ p. (octets : List ℕ) → S.to_give source.old ≡ Some octets
        → IsPictureFile octets p × IsAtEnd (S.to_give source.new)) }
    // A fault of the content is one whose condition holds of the octets.
    ensures wrong { IfErr result (λ f. (octets : List ℕ) → S.to_give source.old ≡ Some octets
        → AreOctets octets → IfContent f (IsPictureFault f octets)) }
    // What is a picture's file is read as that picture, unless the memory or the device fails.
    ensures only { (p : Values) (octets : List ℕ)
        → S.to_give source.old ≡ Some octets → IsPictureFile octets p
        → MatchResult result (λ q. shown_of q ≡ shown_of p) IsMachine }
    // The same by the walk from the left, for the walks that go on from it.
    ensures read { IfOk result (λ p. Takes picture_walk
        (S.to_give source.old) (S.to_give source.new) (shown_of p)) }
    ensures fault { IfErr result (λ f. Fails picture_walk (S.to_give source.old) f) }
    // The same of what was given, of every device: all of it was read, up to the source's end.
    ensures gave { IfOk result (λ p. (octets : List ℕ)
        → IsRead (S.gave source.old) (S.gave source.new) (S.ended source.new) octets
        → IsPictureFile octets p) }
    ensures ended { OnOk result (S.ended source.new) }
    ensures gave_wrong { IfErr result (λ f. (octets : List ℕ)
        → IsRead (S.gave source.old) (S.gave source.new) (S.ended source.new) octets
        → AreOctets octets → IfContent f (IsPictureFault f octets)) }
    ensures gave_only { (p : Values) (octets : List ℕ)
        → IsRead (S.gave source.old) (S.gave source.new) (S.ended source.new) octets
        → IsPictureFile octets p
        → MatchResult result (λ q. shown_of q ≡ shown_of p) IsMachine }
    ensures grown { GrewFrom (S.gave source.old) (S.gave source.new) }
{
    read_whole_picture(alloc, source)
}

/// Reads the front, the samples, and that nothing is behind them.
fn read_whole_picture<A: Allocator, S: ByteSource>(
    alloc: A,
    source: &mut S,
) -> Result<Picture<A>, FileFault>
    ensures whole { IfOk result (λ p. IsPicture p) }
    ensures read { IfOk result (λ p. Takes picture_walk
        (S.to_give source.old) (S.to_give source.new) (shown_of p)) }
    ensures fault { IfErr result (λ f. Fails picture_walk (S.to_give source.old) f) }
    ensures gave { IfOk result (λ p. GaveWhole picture_walk
        (S.gave source.old) (S.gave source.new) (S.ended source.new) (shown_of p)) }
    ensures gave_wrong { IfErr result (λ f. GaveFault picture_walk
        (S.gave source.old) (S.gave source.new) (S.ended source.new) f) }
    ensures bytes { OnOk result (GaveOctets (S.gave source.old) (S.gave source.new)) }
    ensures octets { OnOk result (TellsOctets (S.to_give source.old)) }
    ensures counted { CountsDevice (S.failures source.old) (S.failures source.new) result }
{
    read_version_one(source, PICTURE)?;
    let format = read_format(source)?;
    let samples = read_raster(alloc, source, &format)?;
    read_end(source)?;
    Ok(Picture::from_samples(format, samples))
}

/// Reads name and version of a file whose one version is 01.
pub(crate) fn read_version_one<S: ByteSource>(source: &mut S, name: &[u8]) -> Result<(), FileFault>
    ensures read { OnOk result (Takes (one_at name.now)
        (S.to_give source.old) (S.to_give source.new) One) }
    ensures fault { IfErr result (λ f. Fails (one_at name.now) (S.to_give source.old) f) }
    ensures gave { OnOk result
        (GaveValue (one_at name.now) (S.gave source.old) (S.gave source.new) One) }
    ensures gave_wrong { IfErr result (λ f. GaveFault (one_at name.now)
        (S.gave source.old) (S.gave source.new) (S.ended source.new) f) }
    ensures bytes { OnOk result (GaveOctets (S.gave source.old) (S.gave source.new)) }
    ensures octets { TellsOctets (S.to_give source.old) }
    ensures counted { CountsDevice (S.failures source.old) (S.failures source.new) result }
{
    match read_kind(source, name)? {
        Version::One => Ok(()),
        Version::Two => Err(FileFault::BadVersion),
    }
}

fn read_raster<A: Allocator, S: ByteSource>(
    alloc: A,
    source: &mut S,
    format: &Format,
) -> Result<Vec<u16, A>, FileFault>
    ensures whole { IfOk result (λ v.
        IsPicture (record { format = format.now; samples = v.items })) }
    ensures read { IfOk result (λ v. Takes (raster_at (fields_of format.now))
        (S.to_give source.old) (S.to_give source.new) v.items) }
    ensures fault { IfErr result (λ f.
        Fails (raster_at (fields_of format.now)) (S.to_give source.old) f) }
    ensures gave { IfOk result (λ v. GaveValue (raster_at (fields_of format.now))
        (S.gave source.old) (S.gave source.new) v.items) }
    ensures gave_wrong { IfErr result (λ f. GaveFault (raster_at (fields_of format.now))
        (S.gave source.old) (S.gave source.new) (S.ended source.new) f) }
    ensures bytes { OnOk result (GaveOctets (S.gave source.old) (S.gave source.new)) }
    ensures counted { CountsDevice (S.failures source.old) (S.failures source.new) result }
{
    let samples = read_samples(alloc, source, format, format.sample_count())?;
    Ok(samples)
}

/// Reads so many samples, a piece at a time. Each piece comes behind those before it, into memory
/// that is taken once, for all of them, and that nothing was written to before.
fn read_samples<A: Allocator, S: ByteSource>(
    alloc: A,
    source: &mut S,
    format: &Format,
    count: usize,
) -> Result<Vec<u16, A>, FileFault>
    requires { bits_of format.now.depth * count % 8 ≡ 0 }
    ensures size { IfOk result (λ v. length v.items ≡ count) }
    ensures read { IfOk result (λ v. GivesSpelled (bits_of format.now.depth)
        (S.to_give source.old) (S.to_give source.new) v.items) }
    ensures fault { IfErr result (λ f.
        Fails (field_at (bits_of format.now.depth * count / 8)) (S.to_give source.old) f) }
    ensures gave { IfOk result (λ v. GaveSpelled (bits_of format.now.depth)
        (S.gave source.old) (S.gave source.new) v.items) }
    ensures gave_wrong { IfErr result (λ f.
        GaveFault (field_at (bits_of format.now.depth * count / 8))
        (S.gave source.old) (S.gave source.new) (S.ended source.new) f) }
    ensures counted { CountsDevice (S.failures source.old) (S.failures source.new) result }
{
    let mut samples = Vec::with_capacity(alloc, count)?;
    let mut octets = [0u8; PIECE];
    let mut piece = [0u16; PIECE];
    while samples.len() < count {
        let done = samples.len();
        let n = piece_samples(format, done, count);
        let size = piece_octets(format, n);
        read_piece(source, format, &mut piece[..n], &mut octets[..size])?;
        samples.extend_from_slice(&piece[..n])?;
    }
    Ok(samples)
}

/// Reads all samples of `samples`, for whose octets `octets` has just the room.
fn read_piece<S: ByteSource>(
    source: &mut S,
    format: &Format,
    samples: &mut [u16],
    octets: &mut [u8],
) -> Result<(), FileFault>
    requires { Agree format.now (length octets.old) (length samples.old) }
    ensures room { length octets.new ≡ length octets.old }
    ensures size { length samples.new ≡ length samples.old }
    ensures read { OnOk result (GivesSpelled (bits_of format.now.depth)
        (S.to_give source.old) (S.to_give source.new) samples.new) }
    ensures fault { IfErr result
        (λ f. Fails (field_at (length octets.old)) (S.to_give source.old) f) }
    ensures gave { OnOk result (GaveSpelled (bits_of format.now.depth)
        (S.gave source.old) (S.gave source.new) samples.new) }
    ensures gave_wrong { IfErr result (λ f. GaveFault (field_at (length octets.old))
        (S.gave source.old) (S.gave source.new) (S.ended source.new) f) }
    ensures named { IfErr result IsOfField }
    ensures counted { CountsDevice (S.failures source.old) (S.failures source.new) result }
{
    read_field(source, octets)?;
    pgroup_pack::unpack(format, octets, samples);
    Ok(())
}
