//! A key between two pictures.
ghost use Rattle.std.specs.Prelude.{
  ◌≡◌,
  ◌≢◌,
  ◌≤◌,
  ◌<◌,
  ◌/◌,
  ◌%◌,
  ◌^◌,
  ◌⊎◌,
  ◌↔◌,
  ◌∷◌,
  [],
  EachIndex,
  IsTrue,
  length,
  slice_index,
  IfOk,
  OnOk,
  Err,
};
ghost use Rattle.std.specs.Result.{IfErr};
ghost use Rattle.st_format.specs.declared.sampling.Sampling.TheVariants.{Rgb, Ycc422};
ghost use Rattle.st_format.specs.Picture.{IsPicture};
ghost use Rattle.st_format.specs.Position.{
  number_in_row,
  place_in_row,
  row_samples,
  run_samples,
  sample_count,
};
ghost use Rattle.bt709_fixed.specs.Operations.{IsOf};
ghost use Rattle.key_mix.specs.Jobs.{IsAlike, IsFault, IsSoundJob, key_value};
ghost use Rattle.key_mix.specs.Rows.{column_key, keyed_at};
ghost use Rattle.key_mix.specs.declared.Job.TheVariants.{Key};
ghost use Rattle.key_mix.specs.declared.faults.JobFault.TheVariants.{FormatsDiffer, KeyNotYcc};

use crate::JobFault;
use crate::formats::test_key;
use crate::rows::luma_in_row;
use bt709_fixed::scale_of;
use st_format::{Format, Picture, Sampling};
use std::alloc::{AllocError, Allocator};

/// `a` where the luma of `by` is black, `b` where it is white, and a mix between. `FormatsDiffer`
/// where `a` and `b` have two formats, or `by` has another size, depth or rate; else `KeyNotYcc`
/// where `by` has no luma; else `NoMemory` where the memory was refused.
pub fn key<A: Allocator, B: Allocator, K: Allocator, C: Allocator + Copy>(
    alloc: C,
    a: &Picture<A>,
    b: &Picture<B>,
    by: &Picture<K>,
) -> Result<Picture<C>, JobFault>
    ensures made { IfOk result (λ p. IsOf a.now.format (key_value a.now b.now by.now) p) }
    ensures whole { IfOk result (λ p. IsPicture p) }
    ensures formats { (result ≡ Err FormatsDiffer)
        ↔ ((a.now.format ≢ b.now.format) ⊎ (IsAlike a.now.format by.now.format → ⊥)) }
    ensures ycc { (result ≡ Err KeyNotYcc)
        ↔ ((a.now.format ≡ b.now.format) × IsAlike a.now.format by.now.format
        × (by.now.format.sampling ≡ Rgb)) }
    ensures sound { OnOk result
        (IsSoundJob Key (a.now.format ∷ b.now.format ∷ by.now.format ∷ [])) }
    ensures fault { IfErr result (λ e.
        IsFault e Key (a.now.format ∷ b.now.format ∷ by.now.format ∷ [])) }
{
    let format = a.format();
    let of_key = by.format();
    test_key(format, b.format(), of_key)?;
    let samples = keyed_samples(
        alloc,
        format,
        of_key,
        a.samples(),
        b.samples(),
        by.samples(),
    )?;
    Ok(Picture::from_samples(format, samples))
}

/// The samples of two lists of one format, keyed by the lumas of a third, of a sampling of its own.
fn keyed_samples<C: Allocator + Copy>(
    alloc: C,
    format: Format,
    of_key: Format,
    a: &[u16],
    b: &[u16],
    by: &[u16],
) -> Result<Vec<u16, C>, AllocError>
    requires of_a { length a.now ≡ sample_count format }
    requires of_b { length b.now ≡ sample_count format }
    requires of_by { length by.now ≡ sample_count of_key }
    requires alike { IsAlike format of_key }
    ensures long { IfOk result (λ v. length v.items ≡ sample_count format) }
    ensures each { IfOk result (λ v. EachIndex v.items (λ k.
        slice_index v.items k ≡ keyed_at format of_key a.now b.now by.now k)) }
{
    let mut keys = Vec::from_elem(alloc, 0, format.row_samples())?;
    let mut samples = Vec::from_elem(alloc, 0, format.sample_count())?;
    key_rows(
        format,
        of_key,
        a,
        b,
        by,
        keys.as_mut_slice(),
        samples.as_mut_slice(),
    );
    Ok(samples)
}

/// Keys row by row. `keys` is room for the keys of a row.
fn key_rows(
    format: Format,
    of_key: Format,
    a: &[u16],
    b: &[u16],
    by: &[u16],
    keys: &mut [u16],
    out: &mut [u16],
)
    requires of_a { length a.now ≡ sample_count format }
    requires of_b { length b.now ≡ sample_count format }
    requires of_by { length by.now ≡ sample_count of_key }
    requires alike { IsAlike format of_key }
    requires of_row { length keys.old ≡ row_samples format }
    requires of_out { length out.old ≡ sample_count format }
    ensures long { length out.new ≡ length out.old }
    ensures each { EachIndex out.new (λ k.
        slice_index out.new k ≡ keyed_at format of_key a.now b.now by.now k) }
{
    let sampling = format.sampling();
    let of_lumas = of_key.sampling();
    let height = format.height();
    let scale = scale_of(format.depth());
    let n = format.row_samples();
    let m = of_key.row_samples();
    let mut at = 0;
    let mut from = 0;
    for row in 0..height {
        let end = at + n;
        let to = from + m;
        row_keys(sampling, of_lumas, scale, &by[from..to], keys);
        lane_kernels::key_mix(
            &a[at..end],
            &b[at..end],
            keys,
            219 * scale,
            &mut out[at..end],
        );
        at = end;
        from = to;
    }
}

/// The keys of the samples of a row: each is that of its column in `row`. Inlined where the two
/// slices are known to lie apart, its loops go by vectors.
#[inline(always)]
pub(crate) fn row_keys(
    sampling: Sampling,
    of_key: Sampling,
    scale: u16,
    row: &[u16],
    keys: &mut [u16],
)
    requires few { length keys.old ≤ 32768 }
    requires whole { length keys.old % run_samples sampling ≡ 0 }
    requires most { scale ≤ 256 }
    requires lumas { EachIndex keys.old (λ j.
        number_in_row of_key (place_in_row sampling j).0 0 < length row.now) }
    ensures long { length keys.new ≡ length keys.old }
    ensures each { EachIndex keys.new (λ j. slice_index keys.new j
        ≡ column_key of_key scale row.now (place_in_row sampling j).0) }
{
    match of_key {
        Sampling::Ycc422 => keys_from(sampling, Sampling::Ycc422, scale, row, keys),
        Sampling::Ycc444 => keys_from(sampling, Sampling::Ycc444, scale, row, keys),
        Sampling::Rgb => keys_from(sampling, Sampling::Rgb, scale, row, keys),
    }
}

/// The same. Inlined at a literal `of_key`, it reads `row` by a known step.
#[inline(always)]
fn keys_from(sampling: Sampling, of_key: Sampling, scale: u16, row: &[u16], keys: &mut [u16])
    requires few { length keys.old ≤ 32768 }
    requires whole { length keys.old % run_samples sampling ≡ 0 }
    requires most { scale ≤ 256 }
    requires lumas { EachIndex keys.old (λ j.
        number_in_row of_key (place_in_row sampling j).0 0 < length row.now) }
    ensures long { length keys.new ≡ length keys.old }
    ensures each { EachIndex keys.new (λ j. slice_index keys.new j
        ≡ column_key of_key scale row.now (place_in_row sampling j).0) }
{
    match sampling {
        Sampling::Ycc422 => pair_keys(of_key, scale, row, keys),
        Sampling::Ycc444 => pixel_keys(of_key, scale, row, keys),
        Sampling::Rgb => pixel_keys(of_key, scale, row, keys),
    }
}

/// The keys of pairs of columns: of Cb, Y, Cr and Y three are at the first column. Pairs that have
/// the lumas of pairs go by lanes.
#[inline(always)]
fn pair_keys(of_key: Sampling, scale: u16, row: &[u16], keys: &mut [u16])
    requires few { length keys.old ≤ 32768 }
    requires whole { length keys.old % 4 ≡ 0 }
    requires most { scale ≤ 256 }
    requires lumas { EachIndex keys.old (λ j.
        number_in_row of_key (place_in_row Ycc422 j).0 0 < length row.now) }
    ensures long { length keys.new ≡ length keys.old }
    ensures each { EachIndex keys.new (λ j. slice_index keys.new j
        ≡ column_key of_key scale row.now (place_in_row Ycc422 j).0) }
{
    match of_key {
        Sampling::Ycc422 => lane_kernels::pair_keys(row, 16 * scale, 219 * scale, keys),
        Sampling::Ycc444 => pixel_pair_keys(Sampling::Ycc444, scale, row, keys),
        Sampling::Rgb => pixel_pair_keys(Sampling::Rgb, scale, row, keys),
    }
}

/// The same, pair after pair, where each pixel of `row` has a luma of its three samples.
#[inline(always)]
fn pixel_pair_keys(of_key: Sampling, scale: u16, row: &[u16], keys: &mut [u16])
    requires few { length keys.old ≤ 32768 }
    requires whole { length keys.old % 4 ≡ 0 }
    requires most { scale ≤ 256 }
    requires lumas { EachIndex keys.old (λ j.
        number_in_row of_key (place_in_row Ycc422 j).0 0 < length row.now) }
    ensures long { length keys.new ≡ length keys.old }
    ensures each { EachIndex keys.new (λ j. slice_index keys.new j
        ≡ column_key of_key scale row.now (place_in_row Ycc422 j).0) }
{
    for pair in 0..keys.len() / 4 {
        let first = key_at(of_key, scale, row, 2 * pair);
        let second = key_at(of_key, scale, row, 2 * pair + 1);
        keys[4 * pair] = first;
        keys[4 * pair + 1] = first;
        keys[4 * pair + 2] = first;
        keys[4 * pair + 3] = second;
    }
}

/// The keys of pixels of three samples, all at one column.
#[inline(always)]
fn pixel_keys(of_key: Sampling, scale: u16, row: &[u16], keys: &mut [u16])
    requires few { length keys.old ≤ 32768 }
    requires whole { length keys.old % 3 ≡ 0 }
    requires most { scale ≤ 256 }
    requires lumas { EachIndex keys.old (λ j. number_in_row of_key (j / 3) 0 < length row.now) }
    ensures long { length keys.new ≡ length keys.old }
    ensures each { EachIndex keys.new (λ j. slice_index keys.new j
        ≡ column_key of_key scale row.now (j / 3)) }
{
    for pixel in 0..keys.len() / 3 {
        let key = key_at(of_key, scale, row, pixel);
        keys[3 * pixel] = key;
        keys[3 * pixel + 1] = key;
        keys[3 * pixel + 2] = key;
    }
}

/// The key of a column: its luma in `row` above black, up to white.
#[inline(always)]
fn key_at(of_key: Sampling, scale: u16, row: &[u16], column: usize) -> u16
    requires few { column < 2 ^ 32 }
    requires most { scale ≤ 256 }
    requires luma { number_in_row of_key column 0 < length row.now }
    ensures { result ≡ column_key of_key scale row.now column }
{
    let luma = row[luma_in_row(of_key, column)];
    (219 * scale).min(luma.saturating_sub(16 * scale))
}
