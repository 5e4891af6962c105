//! Reading the head of YUV4MPEG2 streams.
ghost use Rattle.std.specs.Prelude.{◌≡◌, ◌++◌, ℕ, List, Some, IfErr, IfOk, MatchResult};
ghost use Rattle.std.specs.Prelude.{OnOk};
ghost use Rattle.st_format.specs.declared.format.Format.{Format};
ghost use Rattle.st_format.specs.Fields.{fields_of};
ghost use Rattle.st_format.specs.Given.{GavePart, GaveValue, Takes};
ghost use Rattle.st_format.specs.History.{IsRead};
ghost use Rattle.picture_forms.specs.Faults.{CountsDevice, IsMachine, IsShown};
ghost use Rattle.picture_forms.specs.Heads.{head_walk, name_at, name_of};
ghost use Rattle.picture_forms.specs.Layouts.{IsYcc, y4m_head};
ghost use Rattle.picture_forms.specs.Walks.{Fails, GaveFault, Reads, Refuses};

use crate::fault::FormFault;
use crate::lines::read_line;
use crate::plane_reading::read_field;
use crate::y4m_header::format_of_head;
use st_format::{ByteSource, Format};

/// How many octets of the line are read behind the name, with its end.
const LINE: usize = 256;

/// Reads the line of a stream, and answers the format of its pictures. No memory is taken.
///
/// # Errors
///
/// The first fault in the order of the octets, or one of the device before it: `Truncated` where
/// there are fewer than nine, `BadMagic` where these aren't `YUV4MPEG2`, `BadHeader` where 256
/// behind them have no LF, `Truncated` where the source ends before it; and then those of
/// [`format_of_head`](crate::format_of_head).
pub fn read_y4m_head<S: ByteSource>(source: &mut S) -> Result<Format, FormFault>
    ensures read { IfOk result
        (λ f. Takes head_walk (S.to_give source.old) (S.to_give source.new) (fields_of f)) }
    ensures fault { IfErr result (λ f. Fails head_walk (S.to_give source.old) f) }
    // The same of what was given, of every device.
    ensures gave { IfOk result
        (λ f. GaveValue head_walk (S.gave source.old) (S.gave source.new) (fields_of f)) }
    ensures gave_wrong { IfErr result (λ f. GaveFault head_walk
        (S.gave source.old) (S.gave source.new) (S.ended source.new) f) }
    // At any fault, the device's too, what was given is no head: a first part, or a wrong one.
    ensures gave_part { IfErr result
        (λ _. GavePart head_walk (S.gave source.old) (S.gave source.new)) }
    // What is written of a format is read as that format, unless the device fails.
    ensures only { (g : Format) (behind : List ℕ) → IsYcc g.sampling
        → S.to_give source.old ≡ Some (y4m_head g ++ behind)
        → MatchResult result
        (λ f. (fields_of f ≡ fields_of g) × (S.to_give source.new ≡ Some behind)) IsMachine }
    ensures gave_only { (g : Format) (behind : List ℕ) → IsYcc g.sampling
        → IsRead (S.gave source.old) (S.gave source.new) (S.ended source.new)
        (y4m_head g ++ behind)
        → MatchResult result (λ f. (fields_of f ≡ fields_of g)
        × (S.gave source.new ≡ S.gave source.old ++ y4m_head g)) IsMachine }
    ensures ycc { IfOk result (λ f. IsYcc f.sampling) }
    ensures counted { CountsDevice (S.failures source.old) (S.failures source.new) result }
    ensures names { S.names source.new ≡ S.names source.old }
{
    read_head(source)
}

/// The same, with what the source was to give and what it gave as one fact.
fn read_head<S: ByteSource>(source: &mut S) -> Result<Format, FormFault>
    ensures read { IfOk result (λ f. Reads head_walk
        (S.to_give source.old) (S.to_give source.new)
        (S.gave source.old) (S.gave source.new) (fields_of f)) }
    ensures fault { IfErr result (λ f. Refuses head_walk
        (S.to_give source.old) (S.to_give source.new)
        (S.gave source.old) (S.gave source.new) (S.ended source.new) f) }
    ensures ycc { IfOk result (λ f. IsYcc f.sampling) }
    ensures counted { CountsDevice (S.failures source.old) (S.failures source.new) result }
    ensures names { S.names source.new ≡ S.names source.old }
{
    read_name(source)?;
    let mut line = [0u8; LINE];
    let n = read_line(source, &mut line)?;
    format_of_head(&line[..n])
}

/// Reads the nine octets by which a stream begins: `YUV4MPEG2`, or it is `BadMagic`.
fn read_name<S: ByteSource>(source: &mut S) -> Result<(), FormFault>
    ensures read { OnOk result (Reads name_at
        (S.to_give source.old) (S.to_give source.new)
        (S.gave source.old) (S.gave source.new) tt) }
    ensures fault { IfErr result (λ f. Refuses name_at
        (S.to_give source.old) (S.to_give source.new)
        (S.gave source.old) (S.gave source.new) (S.ended source.new) f) }
    ensures counted { CountsDevice (S.failures source.old) (S.failures source.new) result }
    ensures names { S.names source.new ≡ S.names source.old }
{
    let mut name = [0u8; 9];
    read_field(source, &mut name)?;
    name_in(&name)
}

/// That octets are the name of a stream.
fn name_in(name: &[u8]) -> Result<(), FormFault>
    ensures value { result ≡ name_of name.now }
    ensures named { IfErr result IsShown }
{
    if name == b"YUV4MPEG2".as_slice() {
        Ok(())
    } else {
        Err(FormFault::BadMagic)
    }
}
