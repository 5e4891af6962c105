//! What holds of the definitions themselves. Each law is a function's contract; the functions do
//! nothing.
ghost use Rattle.std.specs.Prelude.{◌≡◌, ◌⊎◌, ◌↔◌, ℕ, List, Ok, Err};
ghost use Rattle.rtp_header.specs.declared.header.RtpFault.{RtpFault};
ghost use Rattle.rtp_header.specs.Faults.{HasRtpFault, IsBadPadding, IsBadVersion};
ghost use Rattle.rtp_header.specs.Faults.{IsShortExtension};
ghost use Rattle.rtp_header.specs.Faults.{IsShortHeader};
ghost use Rattle.rtp_header.specs.Grammar.{AreOctets, IsRtp, Rtp};
ghost use Rattle.rtp_header.specs.Reading.{rtp_walk};

/// Octets say one thing at most: a datagram has one reading (RFC 3550, 5.1).
pub fn one_reading()
    ensures { (octets : List ℕ) (r s : Rtp) → IsRtp octets r → IsRtp octets s → r ≡ s }
{}

/// Reading from the left answers what the octets say, exactly where they are in the grammar.
pub fn read_in_grammar()
    ensures { (octets : List ℕ) (r : Rtp) → AreOctets octets →
        (rtp_walk octets ≡ Ok r) ↔ IsRtp octets r }
{}

/// Reading from the left tells each fault exactly where its condition stands in the octets.
pub fn first_fault()
    ensures short_header { (octets : List ℕ) →
        (rtp_walk octets ≡ Err RtpFault.ShortHeader) ↔ IsShortHeader octets }
    ensures bad_version { (octets : List ℕ) →
        (rtp_walk octets ≡ Err RtpFault.BadVersion) ↔ IsBadVersion octets }
    ensures short_extension { (octets : List ℕ) →
        (rtp_walk octets ≡ Err RtpFault.ShortExtension) ↔ IsShortExtension octets }
    ensures bad_padding { (octets : List ℕ) →
        (rtp_walk octets ≡ Err RtpFault.BadPadding) ↔ IsBadPadding octets }
{}

/// Octets are a datagram, or one fault stands in them and no other.
pub fn datagram_or_fault()
    ensures some { (octets : List ℕ) → AreOctets octets →
        ((r : Rtp) × IsRtp octets r) ⊎ ((e : RtpFault) × HasRtpFault octets e) }
    ensures apart { (octets : List ℕ) (r : Rtp) (e : RtpFault) →
        IsRtp octets r → HasRtpFault octets e → ⊥ }
    ensures one { (octets : List ℕ) (e d : RtpFault) →
        HasRtpFault octets e → HasRtpFault octets d → e ≡ d }
{}
