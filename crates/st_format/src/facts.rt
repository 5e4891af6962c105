//! What a type tells of its values, for the proofs of callers. A call costs nothing.
ghost use Rattle.std.specs.Prelude.{◌<◌};
ghost use Rattle.std.specs.List.{AllByRecursion};
ghost use Rattle.st_format.specs.Device.{AreOctets};

/// Octets are numbers below 256.
#[doc(hidden)]
pub fn are_octets(octets: &[u8])
    ensures each { AreOctets octets.now }
    ensures all { AllByRecursion (λ v. v < 256) octets.now }
{}
