//! Packets that are left out, counted.
ghost use Rattle.std.specs.Prelude.{◌≡◌, ◌≤◌, ◌++◌, ◌∷◌, ◌+◌, ◌-◌, ◌^◌, List, [], Some, length};
ghost use Rattle.std.specs.Prelude.{if◌then◌else◌, min};
ghost use Rattle.arrayvec.specs.ArrayString.{array_string_len};
ghost use Rattle.st_format.specs.Device.{capped};
ghost use Rattle.recording_counts.specs.declared.omission.Omission.{Omission as Reason};
ghost use Rattle.recording_counts.specs.LeftOut.{each_of, is_omission, left_out_of};
ghost use Rattle.recording_counts.specs.LeftOut.{left_out_text, reason_text, sum_of};

use crate::omission::Omission;
use arrayvec::ArrayString;
use pcap_file::NoDatagram;
use std::fmt;
use text_line::{add, add_number};

/// Room for the lines of all reasons, in octets.
pub const LEFT_OUT_TEXT: usize = 336;

/// How many packets of recordings are left out, by the reason. A count stays at 2^64 - 1 once it is
/// there.
#[derive(Clone, Copy, Debug, PartialEq, Eq)]
pub struct LeftOut {
    pub cut_short: u64,
    pub not_ip: u64,
    pub bad_ip_header: u64,
    pub not_udp: u64,
    pub fragment: u64,
    pub bad_udp_length: u64,
    /// Datagrams of other flows.
    pub other_flow: u64,
}

const CUT_SHORT: Omission = Omission::NoDatagram(NoDatagram::CutShort);

const NOT_IP: Omission = Omission::NoDatagram(NoDatagram::NotIp);

const BAD_IP_HEADER: Omission = Omission::NoDatagram(NoDatagram::BadIpHeader);

const NOT_UDP: Omission = Omission::NoDatagram(NoDatagram::NotUdp);

const FRAGMENT: Omission = Omission::NoDatagram(NoDatagram::Fragment);

const BAD_UDP_LENGTH: Omission = Omission::NoDatagram(NoDatagram::BadUdpLength);

impl LeftOut {
    /// The counts of no packets.
    pub fn new() -> LeftOut
        ensures { result ≡ left_out_of [] }
    {
        LeftOut {
            cut_short: 0,
            not_ip: 0,
            bad_ip_header: 0,
            not_udp: 0,
            fragment: 0,
            bad_udp_length: 0,
            other_flow: 0,
        }
    }

    /// Notes the reason of one more.
    pub fn note(&mut self, omission: Omission)
        ensures { (omissions : List Reason) → self.old ≡ left_out_of omissions
            → self.new ≡ left_out_of (omissions ++ omission ∷ []) }
    {
        let cut_short = one_more(self.cut_short, CUT_SHORT, omission);
        let not_ip = one_more(self.not_ip, NOT_IP, omission);
        let bad_ip_header = one_more(self.bad_ip_header, BAD_IP_HEADER, omission);
        let not_udp = one_more(self.not_udp, NOT_UDP, omission);
        let fragment = one_more(self.fragment, FRAGMENT, omission);
        let bad_udp_length = one_more(self.bad_udp_length, BAD_UDP_LENGTH, omission);
        let other_flow = one_more(self.other_flow, Omission::OtherFlow, omission);
        *self = LeftOut {
            cut_short,
            not_ip,
            bad_ip_header,
            not_udp,
            fragment,
            bad_udp_length,
            other_flow,
        };
    }

    /// Adds the counts of others. A sum stays at 2^64 - 1 once it is there.
    pub fn add(&mut self, others: &LeftOut)
        ensures { (some : List Reason) (more : List Reason) → self.old ≡ left_out_of some
            → others.now ≡ left_out_of more → self.new ≡ left_out_of (some ++ more) }
    {
        let cut_short = self.cut_short.saturating_add(others.cut_short);
        let not_ip = self.not_ip.saturating_add(others.not_ip);
        let bad_ip_header = self.bad_ip_header.saturating_add(others.bad_ip_header);
        let not_udp = self.not_udp.saturating_add(others.not_udp);
        let fragment = self.fragment.saturating_add(others.fragment);
        let bad_udp_length = self.bad_udp_length.saturating_add(others.bad_udp_length);
        let other_flow = self.other_flow.saturating_add(others.other_flow);
        *self = LeftOut {
            cut_short,
            not_ip,
            bad_ip_header,
            not_udp,
            fragment,
            bad_udp_length,
            other_flow,
        };
    }

    /// How many they are in all, 2^64 - 1 at most: the sum of the counts.
    pub fn total(&self) -> u64
        ensures sum { result ≡ capped (sum_of self.now) }
        ensures all { (omissions : List Reason) → self.now ≡ left_out_of omissions
            → result ≡ capped (length omissions) }
    {
        self.sum()
    }

    fn sum(&self) -> u64
        ensures { result ≡ capped (sum_of self.now) }
    {
        self.cut_short
            .saturating_add(self.not_ip)
            .saturating_add(self.bad_ip_header)
            .saturating_add(self.not_udp)
            .saturating_add(self.fragment)
            .saturating_add(self.bad_udp_length)
            .saturating_add(self.other_flow)
    }

    /// Each reason with its count, in the order of their numbers.
    pub fn each(&self) -> [(Omission, u64); 7]
        ensures { result ≡ each_of self.now }
    {
        [
            (CUT_SHORT, self.cut_short),
            (NOT_IP, self.not_ip),
            (BAD_IP_HEADER, self.bad_ip_header),
            (NOT_UDP, self.not_udp),
            (FRAGMENT, self.fragment),
            (BAD_UDP_LENGTH, self.bad_udp_length),
            (Omission::OtherFlow, self.other_flow),
        ]
    }
}

/// A count of packets left out for the one reason, where the next is left out for the other.
fn one_more(count: u64, counted: Omission, omission: Omission) -> u64
    ensures { result
        ≡ if is_omission counted omission then min (count + 1) (2 ^ 64 - 1) else count }
{
    if counted.number() == omission.number() {
        count.saturating_add(1)
    } else {
        count
    }
}

/// A line for each reason for which a packet is left out, as `add_left_out` adds them.
impl fmt::Display for LeftOut {
    ghost output = { λ l. Some (left_out_text l) };

    fn fmt<W: fmt::Write>(&self, f: &mut fmt::Formatter<W>) -> fmt::Result {
        let mut text = ArrayString::<LEFT_OUT_TEXT>::new();
        add_left_out(&mut text, self);
        f.write_str(text.as_str())
    }
}

/// Adds a line for each reason for which a packet is left out, as `left out 10 NotUdp`, in the
/// order of the reasons, each behind an end of line, to a text that has room for `LEFT_OUT_TEXT`
/// octets more.
pub fn add_left_out<const N: usize>(text: &mut ArrayString<N>, left_out: &LeftOut)
    requires { array_string_len text.old + LEFT_OUT_TEXT ≤ N }
    ensures text { text.new.bytes ≡ text.old.bytes ++ left_out_text left_out.now }
    ensures room { array_string_len text.new ≤ array_string_len text.old + LEFT_OUT_TEXT }
{
    add_reason(text, left_out.cut_short, CUT_SHORT);
    add_reason(text, left_out.not_ip, NOT_IP);
    add_reason(text, left_out.bad_ip_header, BAD_IP_HEADER);
    add_reason(text, left_out.not_udp, NOT_UDP);
    add_reason(text, left_out.fragment, FRAGMENT);
    add_reason(text, left_out.bad_udp_length, BAD_UDP_LENGTH);
    add_reason(text, left_out.other_flow, Omission::OtherFlow);
}

/// Adds how many packets are left out for a reason, where there are such.
fn add_reason<const N: usize>(text: &mut ArrayString<N>, count: u64, reason: Omission)
    requires { array_string_len text.old + 47 ≤ N }
    ensures text { text.new.bytes ≡ text.old.bytes ++ reason_text count reason }
    ensures room { array_string_len text.new ≤ array_string_len text.old + 47 }
{
    if count == 0 {
        return;
    }
    add_number(text, "\nleft out ", count);
    add(text, " ");
    add(text, reason.name());
}
