//! Reading the parts of blocks from a source, step by step.
ghost use Rattle.std.specs.Prelude.{◌≡◌, ◌≤◌, ◌<◌, length, take, IfErr, IfOk, IfSome, OnOk};
ghost use Rattle.pcap_file.specs.Fields.{CountsDevice, Fails, GaveFault};
ghost use Rattle.st_format.specs.Given.{GaveNext, GaveValue, Takes};
ghost use Rattle.pcap_file.specs.NgReading.{again_of, body_at, kept_at, order_at, order_or};
ghost use Rattle.pcap_file.specs.NgReading.{passed_at, section_rest_at, skip_at, trailer_at};
ghost use Rattle.pcap_file.specs.NgReading.{block_at, block_by, body_in, front_at, front_in};
ghost use Rattle.pcap_file.specs.NgReading.{is_read};
ghost use Rattle.pcap_file.specs.NgReading.{section_at, section_by, section_count, version_at};
ghost use Rattle.pcap_file.specs.BlockReading.{order_of};

use crate::blocks::{ENHANCED, INTERFACE, OBSOLETE, SIMPLE, body_of_total, order_of, read_section};
use crate::fault::RecordingFault;
use crate::fields::read_field;
use crate::order::{ByteOrder, long_at};
use st_format::{ByteSource, read_whole};

/// Passes over so many octets. `buf` is where they go.
pub(crate) fn skip<S: ByteSource>(
    source: &mut S,
    count: usize,
    buf: &mut [u8],
) -> Result<(), RecordingFault>
    requires { 0 < length buf.old }
    ensures room { length buf.new ≡ length buf.old }
    ensures read { OnOk result
        (Takes (skip_at count) (S.to_give source.old) (S.to_give source.new) tt) }
    ensures gave { OnOk result (GaveValue (skip_at count) (S.gave source.old) (S.gave source.new)
        tt) }
    ensures fault { IfErr result (λ f. Fails (skip_at count) (S.to_give source.old) f) }
    ensures gave_wrong { IfErr result (λ f. GaveFault (skip_at count) (S.gave source.old)
        (S.gave source.new) (S.ended source.new) f) }
    ensures counted { CountsDevice (S.failures source.old) (S.failures source.new) result }
    ensures names { S.names source.new ≡ S.names source.old }
{
    let mut done = 0;
    while done < count {
        let piece = (count - done).min(buf.len());
        read_field(source, &mut buf[..piece])?;
        done += piece;
    }
    Ok(())
}

fn order_in(octets: &[u8]) -> Result<ByteOrder, RecordingFault>
    requires { length octets.now ≡ 4 }
    ensures { result ≡ order_or (order_of octets.now) }
{
    match order_of(octets) {
        Some(order) => Ok(order),
        None => Err(RecordingFault::BadMagic),
    }
}

pub(crate) fn read_order<S: ByteSource>(source: &mut S) -> Result<ByteOrder, RecordingFault>
    ensures read { IfOk result
        (λ order. Takes order_at (S.to_give source.old) (S.to_give source.new) order) }
    ensures gave { IfOk result (λ order. GaveValue order_at (S.gave source.old) (S.gave source.new)
        order) }
    ensures fault { IfErr result (λ f. Fails order_at (S.to_give source.old) f) }
    ensures gave_wrong { IfErr result (λ f. GaveFault order_at (S.gave source.old)
        (S.gave source.new) (S.ended source.new) f) }
    ensures counted { CountsDevice (S.failures source.old) (S.failures source.new) result }
    ensures names { S.names source.new ≡ S.names source.old }
{
    let mut octets = [0u8; 4];
    read_field(source, &mut octets)?;
    order_in(&octets)
}

/// Reads the version of a section, and the eight octets behind it.
fn read_version<S: ByteSource>(source: &mut S, order: ByteOrder) -> Result<(), RecordingFault>
    ensures read { IfOk result
        (λ v. Takes (version_at order) (S.to_give source.old) (S.to_give source.new) v) }
    ensures gave { IfOk result (λ v. GaveValue (version_at order) (S.gave source.old)
        (S.gave source.new) v) }
    ensures fault { IfErr result (λ f. Fails (version_at order) (S.to_give source.old) f) }
    ensures gave_wrong { IfErr result (λ f. GaveFault (version_at order) (S.gave source.old)
        (S.gave source.new) (S.ended source.new) f) }
    ensures counted { CountsDevice (S.failures source.old) (S.failures source.new) result }
    ensures names { S.names source.new ≡ S.names source.old }
{
    let mut octets = [0u8; 12];
    read_field(source, &mut octets)?;
    read_section(order, &octets)
}

/// Whether four octets are a block's length again.
fn again_in(order: ByteOrder, total: u32, octets: &[u8]) -> Result<(), RecordingFault>
    requires { length octets.now ≡ 4 }
    ensures { result ≡ again_of order total octets.now }
{
    if long_at(order, octets, 0) != total {
        return Err(RecordingFault::BadBlock);
    }
    Ok(())
}

/// Reads a block's length again.
fn read_trailer<S: ByteSource>(
    source: &mut S,
    order: ByteOrder,
    total: u32,
) -> Result<(), RecordingFault>
    ensures read { IfOk result
        (λ v. Takes (trailer_at order total) (S.to_give source.old) (S.to_give source.new) v) }
    ensures gave { IfOk result (λ v. GaveValue (trailer_at order total) (S.gave source.old)
        (S.gave source.new) v) }
    ensures fault { IfErr result (λ f. Fails (trailer_at order total) (S.to_give source.old) f) }
    ensures gave_wrong { IfErr result (λ f. GaveFault (trailer_at order total) (S.gave source.old)
        (S.gave source.new) (S.ended source.new) f) }
    ensures counted { CountsDevice (S.failures source.old) (S.failures source.new) result }
    ensures names { S.names source.new ≡ S.names source.old }
{
    let mut octets = [0u8; 4];
    read_field(source, &mut octets)?;
    again_in(order, total, &octets)
}

/// Passes over what is left of a block's body, and reads the block's length again.
fn pass<S: ByteSource>(
    source: &mut S,
    order: ByteOrder,
    total: u32,
    count: usize,
    buf: &mut [u8],
) -> Result<(), RecordingFault>
    requires { 0 < length buf.old }
    ensures room { length buf.new ≡ length buf.old }
    ensures read { IfOk result
        (λ v. Takes (passed_at order total count) (S.to_give source.old) (S.to_give source.new) v) }
    ensures gave { IfOk result (λ v. GaveValue (passed_at order total count) (S.gave source.old)
        (S.gave source.new) v) }
    ensures fault { IfErr result
        (λ f. Fails (passed_at order total count) (S.to_give source.old) f) }
    ensures gave_wrong { IfErr result (λ f. GaveFault (passed_at order total count)
        (S.gave source.old) (S.gave source.new) (S.ended source.new) f) }
    ensures counted { CountsDevice (S.failures source.old) (S.failures source.new) result }
    ensures names { S.names source.new ≡ S.names source.old }
{
    skip(source, count, buf)?;
    read_trailer(source, order, total)
}

/// Reads what is left of a section's block behind its order, of which `count` octets of options.
fn read_section_rest<S: ByteSource>(
    source: &mut S,
    order: ByteOrder,
    total: u32,
    count: usize,
    buf: &mut [u8],
) -> Result<(), RecordingFault>
    requires { 0 < length buf.old }
    ensures room { length buf.new ≡ length buf.old }
    ensures read { IfOk result
        (λ v. Takes (section_rest_at order total count) (S.to_give source.old)
        (S.to_give source.new) v) }
    ensures gave { IfOk result (λ v. GaveValue (section_rest_at order total count)
        (S.gave source.old) (S.gave source.new) v) }
    ensures fault { IfErr result
        (λ f. Fails (section_rest_at order total count) (S.to_give source.old) f) }
    ensures gave_wrong { IfErr result (λ f. GaveFault (section_rest_at order total count)
        (S.gave source.old) (S.gave source.new) (S.ended source.new) f) }
    ensures counted { CountsDevice (S.failures source.old) (S.failures source.new) result }
    ensures names { S.names source.new ≡ S.names source.old }
{
    read_version(source, order)?;
    pass(source, order, total, count, buf)
}

/// Reads a body, which stands at the front of `buf`.
fn read_body<S: ByteSource>(
    source: &mut S,
    count: usize,
    buf: &mut [u8],
) -> Result<(), RecordingFault>
    ensures room { length buf.new ≡ length buf.old }
    ensures within { OnOk result (count ≤ length buf.new) }
    ensures read { OnOk result
        (Takes (body_at (length buf.old) count) (S.to_give source.old) (S.to_give source.new)
        (take count buf.new)) }
    ensures gave { OnOk result (GaveValue (body_at (length buf.old) count) (S.gave source.old)
        (S.gave source.new) (take count buf.new)) }
    ensures fault { IfErr result
        (λ f. Fails (body_at (length buf.old) count) (S.to_give source.old) f) }
    ensures gave_wrong { IfErr result (λ f. GaveFault (body_at (length buf.old) count)
        (S.gave source.old) (S.gave source.new) (S.ended source.new) f) }
    ensures counted { CountsDevice (S.failures source.old) (S.failures source.new) result }
    ensures names { S.names source.new ≡ S.names source.old }
{
    if buf.len() < count {
        return Err(RecordingFault::PacketTooLong);
    }
    read_field(source, &mut buf[..count])
}

/// Reads a body, which stands at the front of `buf`, and the block's length again.
fn keep<S: ByteSource>(
    source: &mut S,
    order: ByteOrder,
    total: u32,
    count: usize,
    buf: &mut [u8],
) -> Result<(), RecordingFault>
    ensures room { length buf.new ≡ length buf.old }
    ensures within { OnOk result (count ≤ length buf.new) }
    ensures read { OnOk result
        (Takes (kept_at order total (length buf.old) count) (S.to_give source.old)
        (S.to_give source.new) (take count buf.new)) }
    ensures gave { OnOk result (GaveValue (kept_at order total (length buf.old) count)
        (S.gave source.old) (S.gave source.new) (take count buf.new)) }
    ensures fault { IfErr result
        (λ f. Fails (kept_at order total (length buf.old) count) (S.to_give source.old) f) }
    ensures gave_wrong { IfErr result (λ f. GaveFault (kept_at order total (length buf.old) count)
        (S.gave source.old) (S.gave source.new) (S.ended source.new) f) }
    ensures counted { CountsDevice (S.failures source.old) (S.failures source.new) result }
    ensures names { S.names source.new ≡ S.names source.old }
{
    read_body(source, count, buf)?;
    read_trailer(source, order, total)
}

/// How many octets of options a section has, by the length of its block.
fn section_count(total: u32) -> Result<usize, RecordingFault>
    ensures { result ≡ section_count total }
{
    let count = body_of_total(total)?;
    if count < 16 {
        return Err(RecordingFault::BadBlock);
    }
    Ok(count - 16)
}

/// Reads what is left of a section's block behind its order, by the block's first eight octets.
fn read_section_by<S: ByteSource>(
    source: &mut S,
    order: ByteOrder,
    front: &[u8],
    buf: &mut [u8],
) -> Result<(), RecordingFault>
    requires room { 0 < length buf.old }
    requires front { length front.now ≡ 8 }
    ensures room { length buf.new ≡ length buf.old }
    ensures read { IfOk result
        (λ v. Takes (section_by order front.now) (S.to_give source.old) (S.to_give source.new) v) }
    ensures gave { IfOk result (λ v. GaveValue (section_by order front.now) (S.gave source.old)
        (S.gave source.new) v) }
    ensures fault { IfErr result
        (λ f. Fails (section_by order front.now) (S.to_give source.old) f) }
    ensures gave_wrong { IfErr result (λ f. GaveFault (section_by order front.now)
        (S.gave source.old) (S.gave source.new) (S.ended source.new) f) }
    ensures counted { CountsDevice (S.failures source.old) (S.failures source.new) result }
    ensures names { S.names source.new ≡ S.names source.old }
{
    let total = long_at(order, front, 4);
    match section_count(total) {
        Ok(count) => read_section_rest(source, order, total, count, buf),
        Err(fault) => Err(fault),
    }
}

/// Reads what is left of a section's block behind its first eight octets, and answers its order.
pub(crate) fn read_section_block<S: ByteSource>(
    source: &mut S,
    front: &[u8],
    buf: &mut [u8],
) -> Result<ByteOrder, RecordingFault>
    requires room { 0 < length buf.old }
    requires front { length front.now ≡ 8 }
    ensures room { length buf.new ≡ length buf.old }
    ensures read { IfOk result
        (λ v. Takes (section_at front.now) (S.to_give source.old) (S.to_give source.new) v) }
    ensures gave { IfOk result (λ v. GaveValue (section_at front.now) (S.gave source.old)
        (S.gave source.new) v) }
    ensures fault { IfErr result (λ f. Fails (section_at front.now) (S.to_give source.old) f) }
    ensures gave_wrong { IfErr result (λ f. GaveFault (section_at front.now) (S.gave source.old)
        (S.gave source.new) (S.ended source.new) f) }
    ensures counted { CountsDevice (S.failures source.old) (S.failures source.new) result }
    ensures names { S.names source.new ≡ S.names source.old }
{
    let order = read_order(source)?;
    read_section_by(source, order, front, buf)?;
    Ok(order)
}

fn is_read(kind: u32) -> bool
    ensures { result ≡ is_read kind }
{
    kind == INTERFACE || kind == OBSOLETE || kind == SIMPLE || kind == ENHANCED
}

/// Reads what is left of a block behind its first eight octets. The body of one that is read stands
/// at the front of `buf`; answers how many octets it has.
fn read_block_by<S: ByteSource>(
    source: &mut S,
    order: ByteOrder,
    kind: u32,
    total: u32,
    count: usize,
    buf: &mut [u8],
) -> Result<Option<usize>, RecordingFault>
    requires { 0 < length buf.old }
    ensures room { length buf.new ≡ length buf.old }
    ensures within { IfOk result (λ r. IfSome r (λ n. n ≤ length buf.new)) }
    ensures read { IfOk result
        (λ r. Takes (block_by order kind total (length buf.old) count) (S.to_give source.old)
        (S.to_give source.new) (body_in r buf.new)) }
    ensures gave { IfOk result (λ r. GaveValue (block_by order kind total (length buf.old) count)
        (S.gave source.old) (S.gave source.new) (body_in r buf.new)) }
    ensures fault { IfErr result
        (λ f. Fails (block_by order kind total (length buf.old) count) (S.to_give source.old) f) }
    ensures gave_wrong { IfErr result (λ f. GaveFault (block_by order kind total (length buf.old)
        count) (S.gave source.old) (S.gave source.new) (S.ended source.new) f) }
    ensures counted { CountsDevice (S.failures source.old) (S.failures source.new) result }
    ensures names { S.names source.new ≡ S.names source.old }
{
    if is_read(kind) {
        keep(source, order, total, count, buf)?;
        return Ok(Some(count));
    }
    pass(source, order, total, count, buf)?;
    Ok(None)
}

/// Reads what is left of a block behind its first eight octets. The body of one that is read stands
/// at the front of `buf`; answers how many octets it has.
pub(crate) fn read_block<S: ByteSource>(
    source: &mut S,
    order: ByteOrder,
    front: &[u8],
    buf: &mut [u8],
) -> Result<Option<usize>, RecordingFault>
    requires room { 0 < length buf.old }
    requires front { length front.now ≡ 8 }
    ensures room { length buf.new ≡ length buf.old }
    ensures within { IfOk result (λ r. IfSome r (λ n. n ≤ length buf.new)) }
    ensures read { IfOk result
        (λ r. Takes (block_at order (length buf.old) front.now) (S.to_give source.old)
        (S.to_give source.new) (body_in r buf.new)) }
    ensures gave { IfOk result (λ r. GaveValue (block_at order (length buf.old) front.now)
        (S.gave source.old) (S.gave source.new) (body_in r buf.new)) }
    ensures fault { IfErr result
        (λ f. Fails (block_at order (length buf.old) front.now) (S.to_give source.old) f) }
    ensures gave_wrong { IfErr result (λ f. GaveFault (block_at order (length buf.old) front.now)
        (S.gave source.old) (S.gave source.new) (S.ended source.new) f) }
    ensures counted { CountsDevice (S.failures source.old) (S.failures source.new) result }
    ensures names { S.names source.new ≡ S.names source.old }
{
    let total = long_at(order, front, 4);
    match body_of_total(total) {
        Ok(count) => read_block_by(source, order, long_at(order, front, 0), total, count, buf),
        Err(fault) => Err(fault),
    }
}

/// Reads the first eight octets of a block, or answers `false` at the end.
pub(crate) fn read_front<S: ByteSource>(
    source: &mut S,
    front: &mut [u8],
) -> Result<bool, RecordingFault>
    requires { length front.old ≡ 8 }
    ensures room { length front.new ≡ 8 }
    ensures read { IfOk result
        (λ b. Takes front_at (S.to_give source.old) (S.to_give source.new) (front_in b front.new)) }
    ensures gave { IfOk result (λ b. GaveNext front_at (S.gave source.old) (S.gave source.new)
        (S.ended source.new) (front_in b front.new)) }
    ensures fault { IfErr result (λ f. Fails front_at (S.to_give source.old) f) }
    ensures gave_wrong { IfErr result (λ f. GaveFault front_at (S.gave source.old)
        (S.gave source.new) (S.ended source.new) f) }
    ensures counted { CountsDevice (S.failures source.old) (S.failures source.new) result }
    ensures names { S.names source.new ≡ S.names source.old }
{
    let count = read_whole(source, front)?;
    if count == 0 {
        return Ok(false);
    }
    if count < 8 {
        return Err(RecordingFault::Truncated);
    }
    Ok(true)
}
