//! Samples of 8 bits: each is an octet.
ghost use Rattle.std.specs.Prelude.{◌≡◌, ◌<◌, ◌*◌, ◌/◌, length, slice_index};
ghost use Rattle.pgroup_pack.specs.Packing.{Fit};
ghost use Rattle.st_format.specs.Samples.{Spells, values_in};

/// An octet a sample, whose value it is.
#[inline(always)]
pub(crate) fn unpack(octets: &[u8], samples: &mut [u16])
    requires { 8 * length octets.now ≡ 8 * length samples.old }
    ensures { Spells 8 octets.now samples.new }
{
    for i in 0..octets.len() {
        samples[i] = octets[i] as u16;
    }
}

/// An octet a sample: each value fits one.
#[inline(always)]
pub(crate) fn pack(samples: &[u16], octets: &mut [u8])
    requires lengths { 8 * length octets.old ≡ 8 * length samples.now }
    requires fit { Fit 8 samples.now }
    ensures { Spells 8 octets.new samples.now }
{
    for i in 0..samples.len() {
        octets[i] = samples[i] as u8;
    }
}

/// The sample of a number among those of 8 bits (RFC 4175, 4.3).
pub(crate) fn sample_at(octets: &[u8], i: usize) -> u16
    requires { i < 8 * length octets.now / 8 }
    ensures { result ≡ slice_index (values_in 8 octets.now) i }
{
    octets[i] as u16
}
