//! The number, the name and the words of each fault of recordings, and of each reason for which a
//! packet is no datagram.
use crate::checks::met;
use pcap_file::{NoDatagram, RecordingFault};
use std::process::Abort;
use test_kit::words::says;

const OF_RECORDINGS: [(RecordingFault, u8, &str, &str); 11] = [
    (RecordingFault::Device, 1, "Device", "the device failed"),
    (
        RecordingFault::Truncated,
        2,
        "Truncated",
        "the octets end within what stands before the packets, a packet or a block",
    ),
    (
        RecordingFault::BadMagic,
        3,
        "BadMagic",
        "the octets begin no recording, or a section has no order",
    ),
    (
        RecordingFault::BadVersion,
        4,
        "BadVersion",
        "its version is not read",
    ),
    (
        RecordingFault::BadBlock,
        5,
        "BadBlock",
        "the lengths of a block don't fit each other or what it holds, or are beyond all use",
    ),
    (
        RecordingFault::BadInterface,
        6,
        "BadInterface",
        "an interface is not described, or its units of time can't be told",
    ),
    (
        RecordingFault::TooManyInterfaces,
        7,
        "TooManyInterfaces",
        "a section describes more than 64 interfaces",
    ),
    (
        RecordingFault::BadTime,
        8,
        "BadTime",
        "a packet's time is no number of nanoseconds since 1970 below 2^64",
    ),
    (
        RecordingFault::PacketTooLong,
        9,
        "PacketTooLong",
        "a packet has more octets than the buffer has room for",
    ),
    (
        RecordingFault::Packed,
        10,
        "Packed",
        "the octets begin a file that gzip has packed",
    ),
    (
        RecordingFault::TooManyBlocks,
        11,
        "TooManyBlocks",
        "there are 2^64 - 1 records or blocks, or more",
    ),
];

const OF_PACKETS: [(NoDatagram, u8, &str, &str); 6] = [
    (
        NoDatagram::CutShort,
        1,
        "CutShort",
        "the recorder cut the packet short",
    ),
    (
        NoDatagram::NotIp,
        2,
        "NotIp",
        "the link layer says that it is no IP packet",
    ),
    (
        NoDatagram::BadIpHeader,
        3,
        "BadIpHeader",
        "the header of the IP packet can't be one, or an extension of it isn't whole",
    ),
    (
        NoDatagram::NotUdp,
        4,
        "NotUdp",
        "the IP packet carries something else than UDP",
    ),
    (
        NoDatagram::Fragment,
        5,
        "Fragment",
        "it is a fragment of an IP packet",
    ),
    (
        NoDatagram::BadUdpLength,
        6,
        "BadUdpLength",
        "the length of UDP doesn't fit what is there",
    ),
];

#[test]
fn of_recordings(rt: HostRuntime) {
    for (fault, number, name, words) in &OF_RECORDINGS {
        met(&rt, fault.number() == *number && fault.name() == *name);
        met(&rt, says(rt.alloc(), fault, words));
    }
}

#[test]
fn of_packets(rt: HostRuntime) {
    for (reason, number, name, words) in &OF_PACKETS {
        met(&rt, reason.number() == *number && reason.name() == *name);
        met(&rt, says(rt.alloc(), reason, words));
    }
}
