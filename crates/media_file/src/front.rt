//! The fields of a file, what stands at its front, and that nothing is behind it.
ghost use Rattle.std.specs.Prelude.{◌≡◌, ◌≤◌, ◌<◌, ◌++◌, ℕ, List, codes, length, take};
ghost use Rattle.std.specs.Prelude.{IfErr, IfOk, OnOk};
ghost use Rattle.media_file.specs.Faults.{CountsDevice, IsOfField, IsOfFront};
ghost use Rattle.media_file.specs.Fields.{Fails, GaveFault};
ghost use Rattle.st_format.specs.Given.{GaveOctets, GavePart, GaveValue, Takes};
ghost use Rattle.media_file.specs.Fields.{GivesPart};
ghost use Rattle.media_file.specs.Fields.{field_at, nothing_at};
ghost use Rattle.media_file.specs.Fronts.{front_at, kind_at, kind_of, text_at, version_of};
ghost use Rattle.st_format.specs.Device.{TellsOctets};
ghost use Rattle.st_format.specs.History.{GrewFrom};

use crate::fault::FileFault;
use st_format::{ByteSource, read_whole};

/// The name that a capture begins with; two digits of a version follow.
pub(crate) const CAPTURE: &[u8] = b"S20CAP";

/// The name that a picture's file begins with; two digits of a version follow.
pub(crate) const PICTURE: &[u8] = b"S20PIC";

/// The versions of files, which are two digits behind a file's name.
#[derive(Clone, Copy)]
pub enum Version {
    /// `01`: a capture without a text, and each other file.
    One,
    /// `02`: a capture with a text.
    Two,
}

/// Fills `buf` with the next octets of a file.
///
/// # Errors
///
/// `Truncated` where the source ends before `buf` is full, and `Device`.
pub fn read_field<S: ByteSource>(source: &mut S, buf: &mut [u8]) -> Result<(), FileFault>
    ensures room { length buf.new ≡ length buf.old }
    ensures named { IfErr result IsOfField }
    ensures read { OnOk result
        (Takes (field_at (length buf.old)) (S.to_give source.old) (S.to_give source.new) buf.new) }
    ensures fault { IfErr result (λ f. Fails (field_at (length buf.old)) (S.to_give source.old) f) }
    ensures gave { OnOk result
        (GaveValue (field_at (length buf.old)) (S.gave source.old) (S.gave source.new) buf.new) }
    ensures gave_wrong { IfErr result (λ f. GaveFault (field_at (length buf.old))
        (S.gave source.old) (S.gave source.new) (S.ended source.new) f) }
    ensures bytes { OnOk result (GaveOctets (S.gave source.old) (S.gave source.new)) }
    ensures part { IfErr result (λ _. GivesPart (field_at (length buf.old)) (S.to_give source.old)
        (S.to_give source.new)) }
    ensures gave_part { IfErr result
        (λ _. GavePart (field_at (length buf.old)) (S.gave source.old) (S.gave source.new)) }
    ensures octets { 0 < length buf.old → TellsOctets (S.to_give source.old) }
    ensures counted { CountsDevice (S.failures source.old) (S.failures source.new) result }
    ensures names { S.names source.new ≡ S.names source.old }
{
    if read_whole(source, buf)? < buf.len() {
        return Err(FileFault::Truncated);
    }
    Ok(())
}

/// Finds that nothing stands behind what was read.
///
/// # Errors
///
/// `TrailingBytes` where an octet was read, and `Device`.
pub fn read_end<S: ByteSource>(source: &mut S) -> Result<(), FileFault>
    ensures read { OnOk result
        (Takes nothing_at (S.to_give source.old) (S.to_give source.new) tt) }
    ensures fault { IfErr result (λ f. Fails nothing_at (S.to_give source.old) f) }
    ensures gave { OnOk result (S.gave source.new ≡ S.gave source.old) }
    ensures ended { OnOk result (S.ended source.new) }
    ensures gave_wrong { IfErr result (λ f. GaveFault nothing_at
        (S.gave source.old) (S.gave source.new) (S.ended source.new) f) }
    ensures counted { CountsDevice (S.failures source.old) (S.failures source.new) result }
    ensures names { S.names source.new ≡ S.names source.old }
{
    let mut octet = [0u8; 1];
    if source.read(&mut octet)? > 0 {
        return Err(FileFault::TrailingBytes);
    }
    Ok(())
}

/// The version of a file that begins with these octets: `BadName` comes before `BadVersion`.
fn version_in(name: &[u8], octets: &[u8; 8]) -> Result<Version, FileFault>
    ensures exact { result ≡ kind_of name.now octets.now }
    ensures named { IfErr result IsOfFront }
{
    let (front, version) = octets.split_at(6);
    if front != name {
        return Err(FileFault::BadName);
    }
    version_by(version)
}

/// The version of two digits: `BadVersion` where it is none of the two.
fn version_by(digits: &[u8]) -> Result<Version, FileFault>
    ensures exact { result ≡ version_of digits.now }
    ensures named { IfErr result IsOfFront }
{
    if digits == b"01".as_slice() {
        return Ok(Version::One);
    }
    if digits == b"02".as_slice() {
        return Ok(Version::Two);
    }
    Err(FileFault::BadVersion)
}

/// Reads what each file begins with: six octets of name, and two of version. Answers the version.
///
/// # Errors
///
/// `Truncated` where there are fewer than eight octets, `BadName` where the first six are another
/// name, `BadVersion` where the others are no version, and `Device`.
pub fn read_kind<S: ByteSource>(source: &mut S, name: &[u8]) -> Result<Version, FileFault>
    ensures named { IfErr result IsOfFront }
    ensures read { IfOk result
        (λ v. Takes (kind_at name.now) (S.to_give source.old) (S.to_give source.new) v) }
    ensures fault { IfErr result (λ f. Fails (kind_at name.now) (S.to_give source.old) f) }
    ensures gave { IfOk result
        (λ v. GaveValue (kind_at name.now) (S.gave source.old) (S.gave source.new) v) }
    ensures gave_wrong { IfErr result (λ f. GaveFault (kind_at name.now)
        (S.gave source.old) (S.gave source.new) (S.ended source.new) f) }
    ensures bytes { OnOk result (GaveOctets (S.gave source.old) (S.gave source.new)) }
    ensures part { IfErr result
        (λ _. GivesPart (kind_at name.now) (S.to_give source.old) (S.to_give source.new)) }
    ensures gave_part { IfErr result
        (λ _. GavePart (kind_at name.now) (S.gave source.old) (S.gave source.new)) }
    ensures octets { TellsOctets (S.to_give source.old) }
    ensures counted { CountsDevice (S.failures source.old) (S.failures source.new) result }
    ensures names { S.names source.new ≡ S.names source.old }
{
    let mut octets = [0u8; 8];
    read_field(source, &mut octets)?;
    version_in(name, &octets)
}

/// Reads what stands before the records of a capture of either version. Its text then stands at the
/// front of `text`, which has room for any, 65,535 octets; answers how many octets it has. In
/// version 01 it has none.
///
/// # Errors
///
/// `Truncated` where the octets end within name and version, or within the text; `BadName`,
/// `BadVersion`, and `Device`.
pub fn read_front<S: ByteSource>(source: &mut S, text: &mut [u8]) -> Result<usize, FileFault>
    requires { 65535 ≤ length text.old }
    ensures room { length text.new ≡ length text.old }
    ensures within { IfOk result (λ n. n < 65536) }
    ensures named { IfErr result IsOfFront }
    ensures read { IfOk result
        (λ n. Takes front_at (S.to_give source.old) (S.to_give source.new) (take n text.new)) }
    ensures fault { IfErr result (λ f. Fails front_at (S.to_give source.old) f) }
    ensures gave { IfOk result
        (λ n. GaveValue front_at (S.gave source.old) (S.gave source.new) (take n text.new)) }
    ensures gave_wrong { IfErr result (λ f. GaveFault front_at
        (S.gave source.old) (S.gave source.new) (S.ended source.new) f) }
    ensures octets { TellsOctets (S.to_give source.old) }
    ensures counted { CountsDevice (S.failures source.old) (S.failures source.new) result }
    ensures names { S.names source.new ≡ S.names source.old }
{
    match read_kind(source, CAPTURE)? {
        Version::One => Ok(0),
        Version::Two => read_text(source, text),
    }
}

/// Reads what stands before the records of a capture of either version, of which the first four
/// octets were read before: what is behind them. All else is as [`read_front`] has it.
///
/// # Errors
///
/// Those of [`read_front`], for the octets behind the four.
pub fn read_front_behind<S: ByteSource>(
    source: &mut S,
    four: &[u8],
    text: &mut [u8],
) -> Result<usize, FileFault>
    requires four { length four.now ≡ 4 }
    requires room { 65535 ≤ length text.old }
    ensures room { length text.new ≡ length text.old }
    ensures within { IfOk result (λ n. n < 65536) }
    ensures named { IfErr result IsOfFront }
    // Whatever the source gave before those four.
    ensures gave { IfOk result (λ n. (before : List ℕ) → S.gave source.old ≡ before ++ four.now
        → GaveValue front_at before (S.gave source.new) (take n text.new)) }
    ensures gave_wrong { IfErr result (λ f. (before : List ℕ)
        → S.gave source.old ≡ before ++ four.now
        → GaveFault front_at before (S.gave source.new) (S.ended source.new) f) }
    ensures grown { GrewFrom (S.gave source.old) (S.gave source.new) }
    ensures counted { CountsDevice (S.failures source.old) (S.failures source.new) result }
    ensures names { S.names source.new ≡ S.names source.old }
{
    let mut rest = [0u8; 4];
    if read_whole(source, &mut rest)? < 4 {
        return Err(FileFault::Truncated);
    }
    match version_in(CAPTURE, &eight(four, &rest))? {
        Version::One => Ok(0),
        Version::Two => read_text(source, text),
    }
}

/// Four octets, and four behind them: what a name and a version take.
fn eight(four: &[u8], rest: &[u8; 4]) -> [u8; 8]
    requires { length four.now ≡ 4 }
    ensures { result ≡ four.now ++ rest.now }
{
    [
        four[0], four[1], four[2], four[3], rest[0], rest[1], rest[2], rest[3],
    ]
}

/// Reads a text behind its length, two octets with the high one first.
fn read_text<S: ByteSource>(source: &mut S, text: &mut [u8]) -> Result<usize, FileFault>
    requires { 65535 ≤ length text.old }
    ensures room { length text.new ≡ length text.old }
    ensures within { IfOk result (λ n. n < 65536) }
    ensures named { IfErr result IsOfField }
    ensures read { IfOk result
        (λ n. Takes text_at (S.to_give source.old) (S.to_give source.new) (take n text.new)) }
    ensures fault { IfErr result (λ f. Fails text_at (S.to_give source.old) f) }
    ensures gave { IfOk result
        (λ n. GaveValue text_at (S.gave source.old) (S.gave source.new) (take n text.new)) }
    ensures gave_wrong { IfErr result (λ f. GaveFault text_at
        (S.gave source.old) (S.gave source.new) (S.ended source.new) f) }
    ensures counted { CountsDevice (S.failures source.old) (S.failures source.new) result }
    ensures names { S.names source.new ≡ S.names source.old }
{
    let mut octets = [0u8; 2];
    read_field(source, &mut octets)?;
    let length = u16::from_be_bytes(octets) as usize;
    read_field(source, &mut text[..length])?;
    Ok(length)
}
