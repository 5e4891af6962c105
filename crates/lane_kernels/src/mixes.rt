//! Mixes of two rows by lanes: by weights, and by keys.
ghost use Rattle.std.specs.Prelude.{◌≡◌, ◌<◌, ◌≤◌, length, slice_index, EachIndex};
ghost use Rattle.lane_kernels.specs.Lanes.{HasLanes};
ghost use Rattle.lane_kernels.specs.Formulas.{key, wipe};

use crate::narrowing::narrowed;
use std::simd::prelude::*;

/// The lanes `w / 256` of the way from `x` to `y`, rounded.
#[inline(always)]
fn mix_lanes(x: u16x8, y: u16x8, w: u16x8) -> u32x8
    requires { EachIndex w (λ k. slice_index w k ≤ 256) }
    ensures value { HasLanes 8 result (λ k.
        wipe (slice_index x k) (slice_index y k) (slice_index w k)) }
    ensures fit { EachIndex x (λ k.
        wipe (slice_index x k) (slice_index y k) (slice_index w k) < 65536) }
{
    let to_y = w.cast::<u32>();
    let sum = x.cast::<u32>() * (u32x8::splat(256) - to_y) + y.cast::<u32>() * to_y;
    (sum + u32x8::splat(128)) / u32x8::splat(256)
}

/// As `mix_lanes`, of one value.
#[inline(always)]
fn mix_of(x: u16, y: u16, w: u16) -> u16
    requires { w ≤ 256 }
    ensures { result ≡ wipe x y w }
{
    ((x as u32 * (256 - w as u32) + y as u32 * w as u32 + 128) / 256) as u16
}

/// The values `w / 256` of the way from `a` to `b`, rounded, for weights of at most 256.
pub fn mix256(a: &[u16], b: &[u16], w: &[u16], out: &mut [u16])
    requires of_a { length a.now ≡ length out.old }
    requires of_b { length b.now ≡ length out.old }
    requires of_w { length w.now ≡ length out.old }
    requires weights { EachIndex w.now (λ k. slice_index w.now k ≤ 256) }
    ensures { EachIndex out.new (λ k.
        slice_index out.new k
        ≡ wipe (slice_index a.now k) (slice_index b.now k) (slice_index w.now k)) }
{
    let mut at = 0;
    while out.len() - at >= 8 {
        let x = u16x8::from_slice(&a[at..]);
        let y = u16x8::from_slice(&b[at..]);
        let weights = u16x8::from_slice(&w[at..]);
        let mixed = narrowed(mix_lanes(x, y, weights));
        mixed.copy_to_slice(&mut out[at..]);
        at += 8;
    }
    for i in at..out.len() {
        out[i] = mix_of(a[i], b[i], w[i]);
    }
}

/// The lanes `k / p` of the way from `x` to `y`, rounded.
#[inline(always)]
fn key_lanes(x: u16x8, y: u16x8, k: u16x8, p: u32) -> u32x8
    requires some { 1 ≤ p }
    requires most { p < 65536 }
    requires of_k { EachIndex k (λ i. slice_index k i ≤ p) }
    ensures value { HasLanes 8 result (λ i.
        key p (slice_index x i) (slice_index y i) (slice_index k i)) }
    ensures fit { EachIndex x (λ i.
        key p (slice_index x i) (slice_index y i) (slice_index k i) < 65536) }
{
    let to_y = k.cast::<u32>();
    let sum = x.cast::<u32>() * (u32x8::splat(p) - to_y) + y.cast::<u32>() * to_y;
    (sum + u32x8::splat(p / 2)) / u32x8::splat(p)
}

/// As `key_lanes`, of one value.
#[inline(always)]
fn key_of(x: u16, y: u16, k: u16, p: u32) -> u16
    requires some { 1 ≤ p }
    requires most { p < 65536 }
    requires of_k { k ≤ p }
    ensures { result ≡ key p x y k }
{
    ((x as u32 * (p - k as u32) + y as u32 * k as u32 + p / 2) / p) as u16
}

/// The values `k / p` of the way from `a` to `b`. Inlined at a literal `p`, it divides by that.
#[inline(always)]
fn key_values(a: &[u16], b: &[u16], k: &[u16], p: u32, out: &mut [u16])
    requires of_a { length a.now ≡ length out.old }
    requires of_b { length b.now ≡ length out.old }
    requires of_k { length k.now ≡ length out.old }
    requires some { 1 ≤ p }
    requires most { p < 65536 }
    requires keys { EachIndex k.now (λ i. slice_index k.now i ≤ p) }
    ensures { EachIndex out.new (λ i.
        slice_index out.new i
        ≡ key p (slice_index a.now i) (slice_index b.now i) (slice_index k.now i)) }
{
    let mut at = 0;
    while out.len() - at >= 8 {
        let x = u16x8::from_slice(&a[at..]);
        let y = u16x8::from_slice(&b[at..]);
        let keys = u16x8::from_slice(&k[at..]);
        let mixed = narrowed(key_lanes(x, y, keys, p));
        mixed.copy_to_slice(&mut out[at..]);
        at += 8;
    }
    for i in at..out.len() {
        out[i] = key_of(a[i], b[i], k[i], p);
    }
}

/// The values `k / p` of the way from `a` to `b`, rounded, for keys of at most `p`. The full keys
/// of the four depths stand as literals, by which the compiler divides faster.
pub fn key_mix(a: &[u16], b: &[u16], k: &[u16], p: u16, out: &mut [u16])
    requires of_a { length a.now ≡ length out.old }
    requires of_b { length b.now ≡ length out.old }
    requires of_k { length k.now ≡ length out.old }
    requires some { 1 ≤ p }
    requires keys { EachIndex k.now (λ i. slice_index k.now i ≤ p) }
    ensures { EachIndex out.new (λ i.
        slice_index out.new i
        ≡ key p (slice_index a.now i) (slice_index b.now i) (slice_index k.now i)) }
{
    match p {
        219 => key_values(a, b, k, 219, out),
        876 => key_values(a, b, k, 876, out),
        3504 => key_values(a, b, k, 3504, out),
        56064 => key_values(a, b, k, 56064, out),
        _ => key_values(a, b, k, p as u32, out),
    }
}
