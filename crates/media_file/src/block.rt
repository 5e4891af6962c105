//! Format blocks.
ghost use Rattle.std.specs.Prelude.{◌≡◌, length, IfErr, IfOk, OnOk};
ghost use Rattle.media_file.specs.Blocks.{block_at, block_of, depth_of, sampling_of};
ghost use Rattle.media_file.specs.Faults.{CountsDevice};
ghost use Rattle.media_file.specs.Fields.{Fails, GaveFault};
ghost use Rattle.st_format.specs.Given.{GaveOctets, GaveValue, Takes};
ghost use Rattle.media_file.specs.StateFile.{format_text, sampling_code};
ghost use Rattle.st_format.specs.Fields.{fields_of, made_fields};

use crate::fault::FileFault;
use crate::front::read_field;
use byteorder::{BigEndian, ByteOrder};
use st_format::{ByteSource, Depth, Format, Sampling};

/// How many octets a format block has (own): 1 for the sampling, 1 for the depth, 2 for width and
/// height each, 4 for N and D each.
const BLOCK: usize = 14;

/// The code of a sampling in a format block (own): 0 to 2.
fn code_of(sampling: Sampling) -> u8
    ensures { result ≡ sampling_code sampling }
{
    match sampling {
        Sampling::Ycc422 => 0,
        Sampling::Ycc444 => 1,
        Sampling::Rgb => 2,
    }
}

/// The fourteen octets that a format is told by, the highest octet of each number first (own).
pub fn format_block(format: &Format) -> [u8; BLOCK]
    ensures { result ≡ format_text (fields_of format.now) }
{
    let mut block = [0u8; BLOCK];
    block[0] = code_of(format.sampling());
    block[1] = format.depth().bits() as u8;
    BigEndian::write_u16(&mut block[2..], format.width() as u16);
    BigEndian::write_u16(&mut block[4..], format.height() as u16);
    BigEndian::write_u32(&mut block[6..], format.n());
    BigEndian::write_u32(&mut block[10..], format.d());
    block
}

/// The sampling of a code of the format block; `BadField` where no sampling has it.
fn sampling_in(code: u8) -> Result<Sampling, FileFault>
    ensures { result ≡ sampling_of code }
{
    match code {
        0 => Ok(Sampling::Ycc422),
        1 => Ok(Sampling::Ycc444),
        2 => Ok(Sampling::Rgb),
        _ => Err(FileFault::BadField),
    }
}

/// The depth of a number of bits of the format block; `BadField` where no depth has it.
fn depth_in(code: u8) -> Result<Depth, FileFault>
    ensures { result ≡ depth_of code }
{
    match code {
        8 => Ok(Depth::D8),
        10 => Ok(Depth::D10),
        12 => Ok(Depth::D12),
        16 => Ok(Depth::D16),
        _ => Err(FileFault::BadField),
    }
}

/// The format that fourteen octets say; `BadField` where there is none such.
fn format_in(block: &[u8; BLOCK]) -> Result<Format, FileFault>
    ensures exact { made_fields result ≡ block_of block.now }
    ensures fault { IfErr result (λ f. f ≡ FileFault.BadField) }
{
    let sampling = sampling_in(block[0])?;
    let depth = depth_in(block[1])?;
    let width = u16::from_be_bytes([block[2], block[3]]) as u32;
    let height = u16::from_be_bytes([block[4], block[5]]) as u32;
    let n = u32::from_be_bytes([block[6], block[7], block[8], block[9]]);
    let d = u32::from_be_bytes([block[10], block[11], block[12], block[13]]);
    let Ok(format) = Format::new(sampling, depth, width, height, n, d) else {
        return Err(FileFault::BadField);
    };
    if format.n() != n || format.d() != d {
        return Err(FileFault::BadField);
    }
    Ok(format)
}

/// Reads a format block, of fourteen octets.
///
/// # Errors
///
/// `Truncated` where there are fewer, `BadField` where they are those of no format or the rate
/// isn't in lowest terms, and `Device`.
pub fn read_format<S: ByteSource>(source: &mut S) -> Result<Format, FileFault>
    ensures read { IfOk result
        (λ f. Takes block_at (S.to_give source.old) (S.to_give source.new) (fields_of f)) }
    ensures fault { IfErr result (λ f. Fails block_at (S.to_give source.old) f) }
    ensures gave { IfOk result
        (λ f. GaveValue block_at (S.gave source.old) (S.gave source.new) (fields_of f)) }
    ensures gave_wrong { IfErr result (λ f. GaveFault block_at
        (S.gave source.old) (S.gave source.new) (S.ended source.new) f) }
    ensures bytes { OnOk result (GaveOctets (S.gave source.old) (S.gave source.new)) }
    ensures counted { CountsDevice (S.failures source.old) (S.failures source.new) result }
{
    let mut block = [0u8; BLOCK];
    read_field(source, &mut block)?;
    format_in(&block)
}
