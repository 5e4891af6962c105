//! What stands before the frames: name and version, and what a receiver is opened with but its
//! format and window.
ghost use Rattle.std.specs.Prelude.{◌≡◌, ◌<◌, ◌≤◌, IfErr, IfOk, OnOk};
ghost use Rattle.st_format.specs.Device.{TellsOctets};
ghost use Rattle.media_file.specs.Faults.{CountsDevice};
ghost use Rattle.media_file.specs.Fields.{Fails, GaveFault};
ghost use Rattle.st_format.specs.Given.{Takes};
ghost use Rattle.receiver_file.specs.Giving.{GaveOf};
ghost use Rattle.receiver_file.specs.Front.{count_at, window_count, flag_at, flag_of, head_at};
ghost use Rattle.receiver_file.specs.Front.{name_at};
ghost use Rattle.receiver_file.specs.Front.{payload_type_at, payload_type_of, ssrc_at, ssrc_of};

use crate::octets::{read_number, read_octet};
use media_file::{FileFault, Version, read_kind};
use st_format::ByteSource;

/// What a receiver's file begins with.
const RECEIVER: &[u8] = b"S20RCV";

/// The fields behind the format block: seven octets (own).
#[derive(Clone, Copy)]
pub(crate) struct Head {
    /// The payload type of the datagrams that it takes: up to 127.
    pub payload_type: u8,
    /// The source that is pinned, or none.
    pub ssrc: Option<u32>,
    /// How many timestamps there are: 1 to 16.
    pub count: u8,
}

pub(crate) fn read_name<S: ByteSource>(source: &mut S) -> Result<(), FileFault>
    ensures read { OnOk result (Takes name_at (S.to_give source.old) (S.to_give source.new) tt) }
    ensures fault { IfErr result (λ f. Fails name_at (S.to_give source.old) f) }
    ensures gave { OnOk result (GaveOf name_at (S.gave source.old) (S.gave source.new) tt) }
    ensures gave_wrong { IfErr result
        (λ f. GaveFault name_at
        (S.gave source.old) (S.gave source.new) (S.ended source.new) f) }
    ensures octets { TellsOctets (S.to_give source.old) }
    ensures counted { CountsDevice (S.failures source.old) (S.failures source.new) result }
{
    match read_kind(source, RECEIVER)? {
        Version::One => Ok(()),
        Version::Two => Err(FileFault::BadVersion),
    }
}

/// Reads the fields behind the format block, the first fault of them in their order.
pub(crate) fn read_head<S: ByteSource>(source: &mut S) -> Result<Head, FileFault>
    ensures payload_type { IfOk result (λ h. h.payload_type ≤ 127) }
    ensures some { IfOk result (λ h. 0 < h.count) }
    ensures few { IfOk result (λ h. h.count ≤ 16) }
    ensures read { IfOk result
        (λ h. Takes head_at (S.to_give source.old) (S.to_give source.new) h) }
    ensures fault { IfErr result (λ f. Fails head_at (S.to_give source.old) f) }
    ensures gave { IfOk result
        (λ h. GaveOf head_at (S.gave source.old) (S.gave source.new) h) }
    ensures gave_wrong { IfErr result
        (λ f. GaveFault head_at
        (S.gave source.old) (S.gave source.new) (S.ended source.new) f) }
    ensures counted { CountsDevice (S.failures source.old) (S.failures source.new) result }
{
    let payload_type = read_payload_type(source)?;
    let ssrc = read_ssrc(source)?;
    let count = read_count(source)?;
    Ok(Head {
        payload_type,
        ssrc,
        count,
    })
}

fn read_payload_type<S: ByteSource>(source: &mut S) -> Result<u8, FileFault>
    ensures most { IfOk result (λ n. n ≤ 127) }
    ensures read { IfOk result
        (λ n. Takes payload_type_at (S.to_give source.old) (S.to_give source.new) n) }
    ensures fault { IfErr result (λ f. Fails payload_type_at (S.to_give source.old) f) }
    ensures gave { IfOk result
        (λ n. GaveOf payload_type_at (S.gave source.old) (S.gave source.new) n) }
    ensures gave_wrong { IfErr result
        (λ f. GaveFault payload_type_at
        (S.gave source.old) (S.gave source.new) (S.ended source.new) f) }
    ensures counted { CountsDevice (S.failures source.old) (S.failures source.new) result }
{
    let payload_type = read_octet(source)?;
    if payload_type > 127 {
        return Err(FileFault::BadField);
    }
    Ok(payload_type)
}

/// Reads whether a source is pinned, and then its number in any case.
fn read_ssrc<S: ByteSource>(source: &mut S) -> Result<Option<u32>, FileFault>
    ensures read { IfOk result
        (λ s. Takes ssrc_at (S.to_give source.old) (S.to_give source.new) s) }
    ensures fault { IfErr result (λ f. Fails ssrc_at (S.to_give source.old) f) }
    ensures gave { IfOk result
        (λ s. GaveOf ssrc_at (S.gave source.old) (S.gave source.new) s) }
    ensures gave_wrong { IfErr result
        (λ f. GaveFault ssrc_at
        (S.gave source.old) (S.gave source.new) (S.ended source.new) f) }
    ensures counted { CountsDevice (S.failures source.old) (S.failures source.new) result }
{
    let pinned = read_flag(source)?;
    let ssrc = read_number(source)?;
    ssrc_in(pinned, ssrc)
}

/// Reads whether a source is pinned: 0 or 1, and else `BadField`.
fn read_flag<S: ByteSource>(source: &mut S) -> Result<bool, FileFault>
    ensures read { IfOk result
        (λ b. Takes flag_at (S.to_give source.old) (S.to_give source.new) b) }
    ensures fault { IfErr result (λ f. Fails flag_at (S.to_give source.old) f) }
    ensures gave { IfOk result
        (λ b. GaveOf flag_at (S.gave source.old) (S.gave source.new) b) }
    ensures gave_wrong { IfErr result
        (λ f. GaveFault flag_at
        (S.gave source.old) (S.gave source.new) (S.ended source.new) f) }
    ensures counted { CountsDevice (S.failures source.old) (S.failures source.new) result }
{
    let code = read_octet(source)?;
    flag_in(code)
}

fn flag_in(code: u8) -> Result<bool, FileFault>
    ensures { result ≡ flag_of code }
{
    match code {
        0 => Ok(false),
        1 => Ok(true),
        _ => Err(FileFault::BadField),
    }
}

/// The source that is pinned. Where none is, 0 stands in its place, and any other number is a
/// `BadField`: so a receiver has one file.
fn ssrc_in(pinned: bool, ssrc: u32) -> Result<Option<u32>, FileFault>
    ensures { result ≡ ssrc_of pinned ssrc }
{
    match (pinned, ssrc) {
        (true, _) => Ok(Some(ssrc)),
        (false, 0) => Ok(None),
        (false, _) => Err(FileFault::BadField),
    }
}

/// Reads the number of timestamps: from 1 to 16, and else `BadField`.
fn read_count<S: ByteSource>(source: &mut S) -> Result<u8, FileFault>
    ensures some { IfOk result (λ n. 0 < n) }
    ensures few { IfOk result (λ n. n ≤ 16) }
    ensures read { IfOk result
        (λ n. Takes count_at (S.to_give source.old) (S.to_give source.new) n) }
    ensures fault { IfErr result (λ f. Fails count_at (S.to_give source.old) f) }
    ensures gave { IfOk result
        (λ n. GaveOf count_at (S.gave source.old) (S.gave source.new) n) }
    ensures gave_wrong { IfErr result
        (λ f. GaveFault count_at
        (S.gave source.old) (S.gave source.new) (S.ended source.new) f) }
    ensures counted { CountsDevice (S.failures source.old) (S.failures source.new) result }
{
    let count = read_octet(source)?;
    if count == 0 || count > 16 {
        return Err(FileFault::BadField);
    }
    Ok(count)
}
