//! Laws over the definitions alone.
ghost use Rattle.std.specs.Prelude.{◌≡◌, ◌↔◌, ◌⊎◌, ◌++◌, ℕ, List, Err};
ghost use Rattle.st_format.specs.declared.format.Format.{Format};
ghost use Rattle.st_format.specs.Raster.{Segment};
ghost use Rattle.payload_header.specs.declared.payload.PayloadFault.{PayloadFault};
ghost use Rattle.payload_header.specs.Payload.{IsPayload};
ghost use Rattle.payload_header.specs.Reading.{payload_walk};
ghost use Rattle.payload_header.specs.Faults.{IsRefusedPayload};
ghost use Rattle.st_format.specs.Device.{AreOctets};
ghost use Rattle.payload_header.specs.declared.writing.SegmentHead.{SegmentHead};
ghost use Rattle.payload_header.specs.Writing.{AreHeads, AreInside, IsWholePayload, data_text};
ghost use Rattle.payload_header.specs.Writing.{payload_front};

/// Octets are a payload of a format in one way at most.
pub fn one_reading()
    ensures { (f : Format) (octets : List ℕ) (d e : ℕ) (ss ts : List Segment)
        → IsPayload octets f d ss → IsPayload octets f e ts → (d ≡ e) × (ss ≡ ts) }
{}

/// Octets are a payload, or are refused.
pub fn read_or_refused()
    ensures { (f : Format) (octets : List ℕ) → AreOctets octets
        → ((extended : ℕ) × (segments : List Segment) × IsPayload octets f extended segments)
        ⊎ ((fault : PayloadFault) × IsRefusedPayload octets f fault) }
{}

/// What is a payload isn't refused: with the law before, octets are the one or the other.
pub fn payload_not_refused()
    ensures { (f : Format) (octets : List ℕ) (extended : ℕ) (segments : List Segment)
        (fault : PayloadFault)
        → IsPayload octets f extended segments → IsRefusedPayload octets f fault → ⊥ }
{}

/// Octets are refused for one fault at most.
pub fn refused_once()
    ensures { (f : Format) (octets : List ℕ) (a b : PayloadFault) → IsRefusedPayload octets f a
        → IsRefusedPayload octets f b → a ≡ b }
{}

/// Reading from the left tells a fault exactly where its condition holds.
pub fn fault_exactly()
    ensures { (f : Format) (octets : List ℕ) (fault : PayloadFault) → AreOctets octets
        → (payload_walk f octets ≡ Err fault) ↔ IsRefusedPayload octets f fault }
{}

/// The front that heads announce, with their segments' octets behind it, is a payload with these
/// segments, just where the segments are whole pgroups, begin at one and lie in the raster.
pub fn written_payload()
    ensures { (f : Format) (extended : ℕ) (heads : List SegmentHead) (segments : List Segment)
        → AreHeads extended heads segments
        → AreInside segments f
        ↔ IsWholePayload (payload_front extended heads ++ data_text segments) f extended segments }
{}

/// Whatever stands behind them, it is a payload of no other number and no other segments.
pub fn written_fields()
    ensures { (f : Format) (extended d : ℕ) (heads : List SegmentHead) (segments ss : List Segment)
        (rest : List ℕ) → AreHeads extended heads segments
        → IsPayload (payload_front extended heads ++ (data_text segments ++ rest)) f d ss
        → (d ≡ extended) × (ss ≡ segments) }
{}
