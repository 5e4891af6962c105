//! Writing a picture's file.
ghost use Rattle.std.specs.Prelude.{◌≡◌, ◌*◌, ◌%◌, ◌++◌, length, IfErr, OnErr, OnOk};
ghost use Rattle.std.specs.Io.KnownBytes.{Appends};
ghost use Rattle.pgroup_pack.specs.Packing.{Agree, Fit};
ghost use Rattle.st_format.specs.Device.{AppendsPrefix, CountsFaults, GrowsPart};
ghost use Rattle.st_format.specs.Fields.{fields_of};
ghost use Rattle.st_format.specs.Pgroup.{bits_of};
ghost use Rattle.st_format.specs.Samples.{octets_in};
ghost use Rattle.media_file.specs.Faults.{CountsDevice, IsDevice};
ghost use Rattle.media_file.specs.PictureFile.{picture_head, picture_text};

use crate::block::format_block;
use crate::fault::FileFault;
use crate::pieces::{PIECE, piece_octets, piece_samples};
use st_format::{ByteSink, DeviceFault, Format, Picture, write_whole};
use std::alloc::Allocator;

/// Writes a picture's file: name, version 01, format block, and the pgroups packed. No memory
/// is taken.
///
/// # Errors
///
/// `Device` where the sink failed: it then has a first part of the file more than before, and not
/// all.
pub fn write_picture<A: Allocator, K: ByteSink>(
    sink: &mut K,
    picture: &Picture<A>,
) -> Result<(), FileFault>
    ensures ok { OnOk result
        (Appends (K.held sink.old) (K.held sink.new) (picture_text picture.now)) }
    ensures fault { IfErr result (λ f. IsDevice f
        × AppendsPrefix (K.held sink.old) (K.held sink.new) (picture_text picture.now)) }
    ensures counted { CountsDevice (K.failures sink.old) (K.failures sink.new) result }
    ensures took { OnOk result (K.took sink.new ≡ K.took sink.old ++ picture_text picture.now) }
    ensures part { OnErr result
        (GrowsPart (K.took sink.old) (K.took sink.new) (picture_text picture.now)) }
{
    let format = picture.format();
    write_head(sink, &format)?;
    let mut piece = [0u8; PIECE];
    write_samples(sink, &format, picture.samples(), &mut piece)?;
    Ok(())
}

/// Writes what stands before the pgroups: name and version, and the format block.
fn write_head<K: ByteSink>(sink: &mut K, format: &Format) -> Result<(), DeviceFault>
    ensures ok { OnOk result (Appends (K.held sink.old) (K.held sink.new)
        (picture_head (fields_of format.now))) }
    ensures fault { OnErr result (AppendsPrefix (K.held sink.old) (K.held sink.new)
        (picture_head (fields_of format.now))) }
    ensures counted { CountsFaults (K.failures sink.old) (K.failures sink.new) result }
    ensures took { OnOk result (K.took sink.new
        ≡ K.took sink.old ++ picture_head (fields_of format.now)) }
    ensures part { OnErr result (GrowsPart (K.took sink.old) (K.took sink.new)
        (picture_head (fields_of format.now))) }
{
    write_whole(sink, b"S20PIC01")?;
    write_whole(sink, &format_block(format))
}

/// Writes the octets that samples spell, in pieces that are packed into `piece`.
fn write_samples<K: ByteSink>(
    sink: &mut K,
    format: &Format,
    samples: &[u16],
    piece: &mut [u8],
) -> Result<(), DeviceFault>
    requires room { length piece.old ≡ 3600 }
    requires whole { bits_of format.now.depth * length samples.now % 8 ≡ 0 }
    requires fit { Fit (bits_of format.now.depth) samples.now }
    ensures ok { OnOk result (Appends (K.held sink.old) (K.held sink.new)
        (octets_in (bits_of format.now.depth) samples.now)) }
    ensures fault { OnErr result (AppendsPrefix (K.held sink.old) (K.held sink.new)
        (octets_in (bits_of format.now.depth) samples.now)) }
    ensures counted { CountsFaults (K.failures sink.old) (K.failures sink.new) result }
    ensures took { OnOk result (K.took sink.new
        ≡ K.took sink.old ++ octets_in (bits_of format.now.depth) samples.now) }
    ensures part { OnErr result (GrowsPart (K.took sink.old) (K.took sink.new)
        (octets_in (bits_of format.now.depth) samples.now)) }
{
    let mut done = 0;
    while done < samples.len() {
        let n = piece_samples(format, done, samples.len());
        let size = piece_octets(format, n);
        write_piece(sink, format, &samples[done..done + n], &mut piece[..size])?;
        done += n;
    }
    Ok(())
}

/// Packs samples and writes their octets, for which `octets` has just the room.
fn write_piece<K: ByteSink>(
    sink: &mut K,
    format: &Format,
    samples: &[u16],
    octets: &mut [u8],
) -> Result<(), DeviceFault>
    requires lengths { Agree format.now (length octets.old) (length samples.now) }
    requires fit { Fit (bits_of format.now.depth) samples.now }
    ensures room { length octets.new ≡ length octets.old }
    ensures ok { OnOk result (Appends (K.held sink.old) (K.held sink.new)
        (octets_in (bits_of format.now.depth) samples.now)) }
    ensures fault { OnErr result (AppendsPrefix (K.held sink.old) (K.held sink.new)
        (octets_in (bits_of format.now.depth) samples.now)) }
    ensures counted { CountsFaults (K.failures sink.old) (K.failures sink.new) result }
    ensures took { OnOk result (K.took sink.new
        ≡ K.took sink.old ++ octets_in (bits_of format.now.depth) samples.now) }
    ensures part { OnErr result (GrowsPart (K.took sink.old) (K.took sink.new)
        (octets_in (bits_of format.now.depth) samples.now)) }
{
    pack(format, samples, octets);
    write_whole(sink, octets)
}

fn pack(format: &Format, samples: &[u16], octets: &mut [u8])
    requires lengths { Agree format.now (length octets.old) (length samples.now) }
    requires fit { Fit (bits_of format.now.depth) samples.now }
    ensures { octets.new ≡ octets_in (bits_of format.now.depth) samples.now }
{
    pgroup_pack::pack(format, samples, octets);
}
