//! The formulas of the jobs in plain loops over slices, a sample or a pixel after the other: what
//! lanes are compared with. Range and gain go by pairs of a colour and a luma sample, of 4:2:2.
use key_mix::Job;

/// A job's formula at each sample, into `out`. `scale` is that of the depth against 8 bits.
pub fn run(job: &Job, scale: u32, inputs: [&[u16]; 3], out: &mut [u16]) {
    let [a, b, by] = inputs;
    match job {
        Job::Limit(_) => limit(scale, a, out),
        Job::Gain(g) => gain(scale, *g, a, out),
        Job::ToYcc444 => matrix(scale, a, out),
        Job::ToYcc422 => thin(a, out),
        Job::Wipe(_) => mix(a, b, out),
        Job::Key => key(scale, a, b, by, out),
    }
}

/// A number of 64 bits within video data.
fn video(value: i64, scale: u32) -> u16 {
    let most = i64::from(scale.wrapping_mul(255).wrapping_sub(1) % 65536);
    u16::try_from(value.min(most).max(i64::from(scale % 65536))).unwrap_or(0)
}

fn limit(scale: u32, a: &[u16], out: &mut [u16]) {
    let scale = (scale % 65536) as u16;
    let low = scale.wrapping_mul(16);
    let (luma, colour) = (scale.wrapping_mul(235), scale.wrapping_mul(240));
    for (values, pair) in out.chunks_exact_mut(2).zip(a.chunks_exact(2)) {
        values[0] = pair[0].max(low).min(colour);
        values[1] = pair[1].max(low).min(luma);
    }
}

/// A number `g / 4096` as far from another, within video data. No product exceeds 32 bits.
#[inline(always)]
fn gained(x: u16, from: i32, g: i32, scale: i32) -> u16 {
    let far = i32::from(x).wrapping_sub(from).wrapping_mul(g);
    let value = (far.wrapping_add(2048) >> 12).wrapping_add(from);
    let most = scale.wrapping_mul(255).wrapping_sub(1);
    u16::try_from(value.max(scale).min(most)).unwrap_or(0)
}

fn gain(scale: u32, g: u32, a: &[u16], out: &mut [u16]) {
    let (scale, g) = ((scale % 65536) as i32, (g % 65536) as i32);
    let black = scale.wrapping_mul(16);
    let centre = scale.wrapping_mul(128);
    for (values, pair) in out.chunks_exact_mut(2).zip(a.chunks_exact(2)) {
        values[0] = gained(pair[0], centre, g, scale);
        values[1] = gained(pair[1], black, g, scale);
    }
}

/// The weighed sum of a pixel, divided.
fn weighed(pixel: &[u16; 3], factors: [i64; 3], divisor: i64) -> i64 {
    let mut sum = divisor / 2;
    for i in 0..3usize {
        sum = sum.wrapping_add(i64::from(pixel[i]).wrapping_mul(factors[i]));
    }
    sum.wrapping_div_euclid(divisor.max(1))
}

fn matrix(scale: u32, rgb: &[u16], out: &mut [u16]) {
    let centre = i64::from(scale.wrapping_mul(128));
    for i in 0..out.len() / 3 {
        let Some([r, g, b]) = rgb.get(3 * i..3 * i + 3) else {
            return;
        };
        let pixel = [*r, *g, *b];
        let cb = weighed(&pixel, [-119_056, -400_512, 519_568], 1_015_941);
        let cr = weighed(&pixel, [440_944, -400_512, -40_432], 862_203);
        out[3 * i] = video(cb.wrapping_add(centre), scale);
        out[3 * i + 1] = video(weighed(&pixel, [1063, 3576, 361], 5000), scale);
        out[3 * i + 2] = video(cr.wrapping_add(centre), scale);
    }
}

fn thin(full: &[u16], out: &mut [u16]) {
    for (values, pixels) in out.chunks_exact_mut(4).zip(full.chunks_exact(6)) {
        values.copy_from_slice(&[pixels[0], pixels[1], pixels[2], pixels[4]]);
    }
}

fn mix(a: &[u16], b: &[u16], out: &mut [u16]) {
    for (i, value) in out.iter_mut().enumerate() {
        let (Some(x), Some(y)) = (a.get(i), b.get(i)) else {
            return;
        };
        let w = (i % 257) as u32;
        let sum = u32::from(*x)
            .wrapping_mul(256 - w)
            .wrapping_add(u32::from(*y).wrapping_mul(w));
        *value = (sum.wrapping_add(128) >> 8) as u16;
    }
}

fn key(scale: u32, a: &[u16], b: &[u16], by: &[u16], out: &mut [u16]) {
    let p = u64::from(scale.wrapping_mul(219).max(1));
    let black = scale.wrapping_mul(16);
    for (i, value) in out.iter_mut().enumerate() {
        let (Some(x), Some(y), Some(k)) = (a.get(i), b.get(i), by.get(i | 1)) else {
            return;
        };
        let k = u64::from(u32::from(*k).saturating_sub(black)).min(p);
        let from_a = u64::from(*x).wrapping_mul(p.wrapping_sub(k));
        let sum = from_a.wrapping_add(u64::from(*y).wrapping_mul(k));
        *value = u16::try_from(sum.wrapping_add(p / 2) / p).unwrap_or(0);
    }
}
