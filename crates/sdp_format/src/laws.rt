//! Laws over the definitions alone: when each fault comes, and that the canonical line reads back.
ghost use Rattle.std.specs.Prelude.{◌≡◌, ◌↔◌, ◌<◌, ℕ, List, [], length, Ok, Err, codes};
ghost use Rattle.sdp_format.specs.declared.sdp.Sdp.{Sdp};
ghost use Rattle.sdp_format.specs.declared.fault.SdpFault.{SdpFault};
ghost use Rattle.sdp_format.specs.declared.fault.SdpFault.TheVariants.{NoVideo, TooManyLegs};
ghost use Rattle.sdp_format.specs.declared.fault.SdpFault.TheVariants.{BadMediaLine, NoRtpmap};
ghost use Rattle.sdp_format.specs.declared.fault.SdpFault.TheVariants.{NotRaw90000, NoFmtp};
ghost use Rattle.sdp_format.specs.declared.fault.SdpFault.TheVariants.{BadParameter};
ghost use Rattle.sdp_format.specs.declared.fault.SdpFault.TheVariants.{DoubleParameter};
ghost use Rattle.sdp_format.specs.declared.fault.SdpFault.TheVariants.{MissingParameter};
ghost use Rattle.sdp_format.specs.declared.fault.SdpFault.TheVariants.{UnsupportedSampling};
ghost use Rattle.sdp_format.specs.declared.fault.SdpFault.TheVariants.{UnsupportedDepth};
ghost use Rattle.sdp_format.specs.declared.fault.SdpFault.TheVariants.{Interlaced};
ghost use Rattle.sdp_format.specs.declared.fault.SdpFault.TheVariants.{UnsupportedPacking, BadSsn};
ghost use Rattle.sdp_format.specs.declared.fault.SdpFault.TheVariants.{BadFormat, LegsDiffer};
ghost use Rattle.sdp_format.specs.Bytes.{lines};
ghost use Rattle.sdp_format.specs.Sections.{Section, Description, video_sections};
ghost use Rattle.sdp_format.specs.Reading.{section_walk, text_walk};
ghost use Rattle.sdp_format.specs.Grammar.{IsMediaLine, LacksLine, HasOtherMap, HasItemFault};
ghost use Rattle.sdp_format.specs.Grammar.{NoneBefore, TwoDiffer, IsTextFault, IsDescribed};
ghost use Rattle.sdp_format.specs.Canonical.{canonical_line};
ghost use Rattle.sdp_format.specs.Views.{description};
ghost use Rattle.sdp_format.specs.Back.{ReadsBack};

/// What a text says, and when it has which fault, by conditions over its video sections. The walk,
/// which tells the first fault, answers just that.
pub fn text_faults()
    ensures said { (text : List ℕ) (d : Description) →
        (IsDescribed (video_sections (lines text)) d
        ↔ (text_walk text ≡ Ok d)) }
    ensures first_fault { (text : List ℕ) (fault : SdpFault) →
        (IsTextFault (video_sections (lines text)) fault
        ↔ (text_walk text ≡ Err fault)) }
    ensures no_video { (text : List ℕ) →
        ((video_sections (lines text) ≡ [])
        ↔ (text_walk text ≡ Err NoVideo)) }
    ensures too_many_legs { (text : List ℕ) →
        ((2 < length (video_sections (lines text)))
        ↔ (text_walk text ≡ Err TooManyLegs)) }
    ensures legs_differ { (text : List ℕ) →
        (TwoDiffer (video_sections (lines text))
        ↔ (text_walk text ≡ Err LegsDiffer)) }
{}

/// When a section has which fault: its condition holds, and that of no earlier fault does. The walk
/// answers just that.
pub fn section_faults()
    ensures bad_media_line { (s : Section) →
        ((((port payload_type : ℕ) → IsMediaLine s.media port payload_type → ⊥)
        × NoneBefore s BadMediaLine)
        ↔ (section_walk s ≡ Err BadMediaLine)) }
    ensures no_rtpmap { (s : Section) →
        ((LacksLine s (codes "a=rtpmap:") × NoneBefore s NoRtpmap)
        ↔ (section_walk s ≡ Err NoRtpmap)) }
    ensures not_raw90000 { (s : Section) →
        ((HasOtherMap s × NoneBefore s NotRaw90000)
        ↔ (section_walk s ≡ Err NotRaw90000)) }
    ensures no_fmtp { (s : Section) →
        ((LacksLine s (codes "a=fmtp:") × NoneBefore s NoFmtp)
        ↔ (section_walk s ≡ Err NoFmtp)) }
    ensures bad_parameter { (s : Section) →
        ((HasItemFault s BadParameter × NoneBefore s BadParameter)
        ↔ (section_walk s ≡ Err BadParameter)) }
    ensures double_parameter { (s : Section) →
        ((HasItemFault s DoubleParameter × NoneBefore s DoubleParameter)
        ↔ (section_walk s ≡ Err DoubleParameter)) }
    ensures missing_parameter { (s : Section) →
        ((HasItemFault s MissingParameter × NoneBefore s MissingParameter)
        ↔ (section_walk s ≡ Err MissingParameter)) }
    ensures unsupported_sampling { (s : Section) →
        ((HasItemFault s UnsupportedSampling × NoneBefore s UnsupportedSampling)
        ↔ (section_walk s ≡ Err UnsupportedSampling)) }
    ensures unsupported_depth { (s : Section) →
        ((HasItemFault s UnsupportedDepth × NoneBefore s UnsupportedDepth)
        ↔ (section_walk s ≡ Err UnsupportedDepth)) }
    ensures interlaced { (s : Section) →
        ((HasItemFault s Interlaced × NoneBefore s Interlaced)
        ↔ (section_walk s ≡ Err Interlaced)) }
    ensures unsupported_packing { (s : Section) →
        ((HasItemFault s UnsupportedPacking × NoneBefore s UnsupportedPacking)
        ↔ (section_walk s ≡ Err UnsupportedPacking)) }
    ensures bad_ssn { (s : Section) →
        ((HasItemFault s BadSsn × NoneBefore s BadSsn)
        ↔ (section_walk s ≡ Err BadSsn)) }
    ensures bad_format { (s : Section) →
        ((HasItemFault s BadFormat × NoneBefore s BadFormat)
        ↔ (section_walk s ≡ Err BadFormat)) }
{}

/// The canonical line of each `Sdp` reads back.
pub fn reads_back()
    ensures { (sdp : Sdp) → ReadsBack (canonical_line (description sdp).leg) (description sdp).leg }
{}
