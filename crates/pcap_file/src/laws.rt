//! What holds of the definitions themselves. Each law is a function's contract; the functions do
//! nothing.
ghost use Rattle.std.specs.Prelude.{◌≡◌, ◌⊎◌, ◌↔◌, ◌+◌, ◌%◌, ◌^◌, ◌<◌, ◌≤◌, ◌++◌, ℕ, List, length};
ghost use Rattle.std.specs.Prelude.{Ok, Err};
ghost use Rattle.std.specs.Prelude.{Some, Option, true};
ghost use Rattle.pcap_file.specs.Blocks.{IsBlock, IsSectionBlock, most_octets};
ghost use Rattle.pcap_file.specs.NgReading.{is_read};
ghost use Rattle.pcap_file.specs.NgSteps.{Known, Stepped, body_read, entered, section_type};
ghost use Rattle.pcap_file.specs.NgSteps.{step_at};
ghost use Rattle.pcap_file.specs.Orders.{long_at};
ghost use Rattle.pcap_file.specs.NgSteps.{fresh};
ghost use Rattle.pcap_file.specs.Recording.{GivesBlocks, IsBlocks, IsNext, IsRecording};
ghost use Rattle.pcap_file.specs.Runs.{fault_in, packets_in};
ghost use Rattle.pcap_file.specs.declared.order.ByteOrder.{ByteOrder};
ghost use Rattle.st_format.specs.Device.{AreOctets};
ghost use Rattle.std.specs.Prelude.{None};
ghost use Rattle.pcap_file.specs.PcapReading.{GivesPcap, HaveRoom, IsPcap, IsRecord, Recorded};
ghost use Rattle.pcap_file.specs.PcapReading.{record_at};
ghost use Rattle.pcap_file.specs.declared.pcap.PcapHead.{PcapHead};
ghost use Rattle.pcap_file.specs.Datagram.{IsDatagram};
ghost use Rattle.pcap_file.specs.Reading.{datagram_walk};
ghost use Rattle.pcap_file.specs.Reasons.{IsNoDatagram};
ghost use Rattle.pcap_file.specs.Udp.{Datagram};
ghost use Rattle.pcap_file.specs.declared.datagram.NoDatagram.{NoDatagram};
ghost use Rattle.pcap_file.specs.declared.link.Link.{Link};
ghost use Rattle.pcap_file.specs.Writing.{ip_checksum, ip_text, pseudo_sum, udp_checksum, udp_text};
ghost use Rattle.pcap_file.specs.Writing.{word_sum};
ghost use Rattle.pcap_file.specs.Writing6.{ends_of, udp6_text};
ghost use Rattle.pcap_file.specs.declared.writing.Envelope.{Envelope};
ghost use Rattle.pcap_file.specs.declared.writing6.Envelope6.{Envelope6};

/// A recorded packet is one datagram at most.
pub fn one_reading()
    ensures { (link : Link) (octets : List ℕ) (c d : Datagram) → IsDatagram link octets c
        → IsDatagram link octets d → c ≡ d }
{}

/// A recorded packet is a datagram, or one reason stands in it and no other.
pub fn datagram_or_reason()
    ensures some { (link : Link) (octets : List ℕ) →
        ((d : Datagram) × IsDatagram link octets d)
        ⊎ ((reason : NoDatagram) × IsNoDatagram link octets reason) }
    ensures apart { (link : Link) (octets : List ℕ) (d : Datagram) (reason : NoDatagram) →
        IsDatagram link octets d → IsNoDatagram link octets reason → ⊥ }
    ensures one { (link : Link) (octets : List ℕ) (e d : NoDatagram) →
        IsNoDatagram link octets e → IsNoDatagram link octets d → e ≡ d }
{}

/// The checksums that are written are right: with them the words sum up to a multiple of 65535, as
/// RFC 1071 asks.
pub fn right_checksums()
    ensures ip { (e : Envelope) (total : ℕ) →
        word_sum (ip_text e total (ip_checksum e total)) % 65535 ≡ 0 }
    ensures udp { (e : Envelope) (payload : List ℕ) →
        (pseudo_sum e (8 + length payload)
        + word_sum (udp_text e (8 + length payload) (udp_checksum e payload))
        + word_sum payload) % 65535 ≡ 0 }
    ensures udp6 { (e : Envelope6) (payload : List ℕ) →
        (pseudo_sum (ends_of e) (8 + length payload) + word_sum (udp6_text e payload)
        + word_sum payload) % 65535 ≡ 0 }
{}

/// A step of reading the classic layout gives a packet exactly where its record stands at the
/// front, if there is room for its octets.
pub fn record_read()
    ensures again { (room : ℕ) (file : PcapHead) (text rest : List ℕ) (p : Recorded) →
        IsRecord file text p → p.head.captured ≤ room →
        record_at room file (text ++ rest) ≡ Ok (Some p, rest) }
    ensures takes { (room : ℕ) (file : PcapHead) (octets rest : List ℕ) (p : Recorded) →
        record_at room file octets ≡ Ok (Some p, rest) →
        (text : List ℕ) × IsRecord file text p × (octets ≡ text ++ rest) }
{}

/// Reading the classic layout from its front, step by step to its end, gives just the packets of a
/// recording, if there is room for the octets of each.
pub fn whole_pcap()
    ensures again { (room : ℕ) (octets : List ℕ) (packets : List Recorded) → AreOctets octets
        → IsPcap octets packets → HaveRoom room packets → GivesPcap room octets packets }
    ensures takes { (room : ℕ) (octets : List ℕ) (packets : List Recorded) →
        GivesPcap room octets packets → IsPcap octets packets }
{}

/// A step of reading blocks gives what a block does exactly where a block stands at the front, if
/// it begins no section and there is room for a body that is read.
pub fn block_read()
    ensures again { (room : ℕ) (k : Known) (octets body rest : List ℕ) (type : ℕ)
        (x : Known × Stepped) → IsBlock k.order octets type body rest
        → (type ≡ section_type → ⊥) → (is_read type ≡ true → length body ≤ room)
        → entered k type (body_read type body) ≡ Ok x → step_at room k octets ≡ Ok (x, rest) }
    ensures takes { (room : ℕ) (k after : Known) (octets rest : List ℕ) (s : Option Recorded)
        → step_at room k octets ≡ Ok ((after, Some s), rest)
        → (long_at k.order 0 octets ≡ section_type → ⊥)
        → (body : List ℕ) × IsBlock k.order octets (long_at k.order 0 octets) body rest
        × (entered k (long_at k.order 0 octets) (body_read (long_at k.order 0 octets) body)
        ≡ Ok (after, Some s)) }
{}

/// Where a section's block stands, a step of reading blocks begins the section, whatever was known.
pub fn section_read()
    ensures { (room : ℕ) (k : Known) (octets rest : List ℕ) (order : ByteOrder)
        → AreOctets octets → IsSectionBlock octets order rest
        → step_at room k octets ≡ Ok ((fresh order, Some None), rest) }
{}

/// The next block of a recording in blocks is read as what it is, if there is room for a body.
pub fn next_read()
    ensures { (room : ℕ) (k after : Known) (octets rest : List ℕ) (s : Option Recorded)
        → AreOctets octets
        → ((type : ℕ) (body : List ℕ) → IsBlock k.order octets type body rest
        → length body ≤ room)
        → IsNext k octets after s rest → step_at room k octets ≡ Ok ((after, Some s), rest) }
{}

/// A recording in blocks is read from its first section, block by block to its end, and gives its
/// packets, if there is room for the greatest block.
pub fn whole_blocks()
    ensures { (room : ℕ) (octets : List ℕ) (packets : List Recorded) → most_octets ≤ room
        → AreOctets octets → IsBlocks octets packets → GivesBlocks room octets packets }
{}

/// A recording of either layout is read as its packets, if there is room for the greatest block and
/// the octets of each packet; and what is read without a fault is a recording of what is read.
pub fn recording_read()
    ensures again { (room : ℕ) (octets : List ℕ) (packets : List Recorded) → most_octets ≤ room
        → HaveRoom room packets → AreOctets octets → length octets < 2 ^ 64
        → IsRecording octets packets
        → (packets_in room octets ≡ packets) × (fault_in room octets ≡ None) }
    ensures takes { (room : ℕ) (octets : List ℕ) (packets : List Recorded) → AreOctets octets
        → packets_in room octets ≡ packets → fault_in room octets ≡ None
        → IsRecording octets packets }
{}
