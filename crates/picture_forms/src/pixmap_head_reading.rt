//! Reading the head of portable pixmaps.
ghost use Rattle.std.specs.Prelude.{◌≡◌, IfErr, IfOk, OnOk};
ghost use Rattle.st_format.specs.Fields.{fields_of, made_fields};
ghost use Rattle.st_format.specs.Given.{GaveValue, Takes};
ghost use Rattle.picture_forms.specs.Faults.{CountsDevice, IsShown};
ghost use Rattle.picture_forms.specs.Layouts.{IsRgb};
ghost use Rattle.picture_forms.specs.Numbers.{count_at};
ghost use Rattle.picture_forms.specs.Pixmaps.{depth_by, magic_at, magic_of, pixmap_format};
ghost use Rattle.picture_forms.specs.Pixmaps.{pixmap_head_walk};
ghost use Rattle.picture_forms.specs.Walks.{Fails, GaveFault, Reads, Refuses};

use crate::fault::FormFault;
use crate::lines::read_octet;
use crate::number_part::{NumberPart, NumberStep, Stage, step_of};
use crate::plane_reading::read_field;
use st_format::{ByteSource, Depth, Format, Sampling};

/// How many octets the text of a number has at most, the one behind its digits among them.
const NUMBER: usize = 1024;

/// Reads the head of a pixmap, and answers the format of its picture at a rate of `n / d` pictures
/// a second, which a pixmap does not say. A comment, from `#` through the next LF or CR, may stand
/// anywhere behind `P6`, also among the digits of a number or right behind them. It says nothing,
/// and its end parts no numbers (Netpbm, pbm and ppm). No memory is taken.
///
/// # Errors
///
/// The first fault in the order of the octets, or one of the device before it: `Truncated` where
/// there are fewer than two, `BadMagic` where these aren't `P6`; of each number `BadHeader` where
/// no white space, decimal digits of a value below 100,000 and white space stand there, or these
/// take more than 1,024 octets, and `Truncated` where the source ends before; then
/// `UnsupportedForm` where the greatest value is none of 255, 1023, 4095 and 65535, and `BadFormat`
/// where there is no such format.
pub fn read_pixmap_head<S: ByteSource>(source: &mut S, n: u32, d: u32) -> Result<Format, FormFault>
    ensures read { IfOk result (λ f. Takes (pixmap_head_walk n d)
        (S.to_give source.old) (S.to_give source.new) (fields_of f)) }
    ensures fault { IfErr result (λ f. Fails (pixmap_head_walk n d) (S.to_give source.old) f) }
    // The same of what was given, of every device.
    ensures gave { IfOk result (λ f. GaveValue (pixmap_head_walk n d)
        (S.gave source.old) (S.gave source.new) (fields_of f)) }
    ensures gave_wrong { IfErr result (λ f. GaveFault (pixmap_head_walk n d)
        (S.gave source.old) (S.gave source.new) (S.ended source.new) f) }
    ensures rgb { IfOk result (λ f. IsRgb f.sampling) }
    ensures counted { CountsDevice (S.failures source.old) (S.failures source.new) result }
    ensures names { S.names source.new ≡ S.names source.old }
{
    read_head(source, n, d)
}

/// The same, with what the source was to give and what it gave as one fact.
fn read_head<S: ByteSource>(source: &mut S, n: u32, d: u32) -> Result<Format, FormFault>
    ensures read { IfOk result (λ f. Reads (pixmap_head_walk n d)
        (S.to_give source.old) (S.to_give source.new)
        (S.gave source.old) (S.gave source.new) (fields_of f)) }
    ensures fault { IfErr result (λ f. Refuses (pixmap_head_walk n d)
        (S.to_give source.old) (S.to_give source.new)
        (S.gave source.old) (S.gave source.new) (S.ended source.new) f) }
    ensures rgb { IfOk result (λ f. IsRgb f.sampling) }
    ensures counted { CountsDevice (S.failures source.old) (S.failures source.new) result }
    ensures names { S.names source.new ≡ S.names source.old }
{
    read_magic(source)?;
    let width = read_count(source, Stage::Front)?;
    let height = read_count(source, Stage::Gap)?;
    let most = read_count(source, Stage::Gap)?;
    format_by(n, d, width, height, most)
}

/// Reads the first two octets.
fn read_magic<S: ByteSource>(source: &mut S) -> Result<(), FormFault>
    ensures read { OnOk result (Reads magic_at
        (S.to_give source.old) (S.to_give source.new)
        (S.gave source.old) (S.gave source.new) tt) }
    ensures fault { IfErr result (λ f. Refuses magic_at
        (S.to_give source.old) (S.to_give source.new)
        (S.gave source.old) (S.gave source.new) (S.ended source.new) f) }
    ensures counted { CountsDevice (S.failures source.old) (S.failures source.new) result }
    ensures names { S.names source.new ≡ S.names source.old }
{
    let mut name = [0u8; 2];
    read_field(source, &mut name)?;
    magic_in(&name)
}

/// That octets are those that a pixmap begins with.
fn magic_in(name: &[u8]) -> Result<(), FormFault>
    ensures value { result ≡ magic_of name.now }
    ensures named { IfErr result IsShown }
{
    if name == b"P6".as_slice() {
        Ok(())
    } else {
        Err(FormFault::BadMagic)
    }
}

/// The format of three numbers and a rate.
#[tactic(auto, unfolding(crate::specs::Pixmaps::pixmap_format))]
fn format_by(n: u32, d: u32, width: u32, height: u32, most: u32) -> Result<Format, FormFault>
    ensures value { made_fields result ≡ pixmap_format n d width height most }
    ensures rgb { IfOk result (λ f. IsRgb f.sampling) }
    ensures named { IfErr result IsShown }
{
    let depth = depth_in(most)?;
    match Format::new(Sampling::Rgb, depth, width, height, n, d) {
        Ok(format) => Ok(format),
        Err(_) => Err(FormFault::BadFormat),
    }
}

/// The depth whose greatest value this is.
fn depth_in(most: u32) -> Result<Depth, FormFault>
    ensures value { result ≡ depth_by most }
    ensures named { IfErr result IsShown }
{
    if most == 255 {
        Ok(Depth::D8)
    } else if most == 1023 {
        Ok(Depth::D10)
    } else if most == 4095 {
        Ok(Depth::D12)
    } else if most == 65535 {
        Ok(Depth::D16)
    } else {
        Err(FormFault::UnsupportedForm)
    }
}

/// Reads a number, and the octet of white space behind it.
fn read_count<S: ByteSource>(source: &mut S, stage: Stage) -> Result<u32, FormFault>
    ensures read { IfOk result (λ k. Reads (count_at stage)
        (S.to_give source.old) (S.to_give source.new)
        (S.gave source.old) (S.gave source.new) k) }
    ensures fault { IfErr result (λ f. Refuses (count_at stage)
        (S.to_give source.old) (S.to_give source.new)
        (S.gave source.old) (S.gave source.new) (S.ended source.new) f) }
    ensures counted { CountsDevice (S.failures source.old) (S.failures source.new) result }
    ensures names { S.names source.new ≡ S.names source.old }
{
    let mut part = NumberPart {
        is_comment: false,
        stage,
        value: 0,
    };
    for i in 0..NUMBER {
        let octet = read_octet(source)?;
        match step_of(part, octet) {
            NumberStep::More(next) => part = next,
            NumberStep::Done(value) => return Ok(value),
            NumberStep::Wrong => return Err(FormFault::BadHeader),
        }
    }
    Err(FormFault::BadHeader)
}
