//! The words of each fault of formats, devices, headers and receivers.
use crate::checks::met;
use path_receiver::{OpenFault, OpenedUnlike, ReceiveFault, Refusal, SeqMapFault, SlideFault};
use payload_header::PayloadFault;
use rtp_header::RtpFault;
use st_format::{DeviceFault, FormatFault, PictureFault, SinkFault, SourceFault};
use test_kit::words::{all_say, says};

const OF_FORMATS: [(FormatFault, &str); 3] = [
    (
        FormatFault::BadWidth,
        "the width isn't from 2 to 8192, a multiple of 2 and of a pgroup's pixels",
    ),
    (FormatFault::BadHeight, "the height isn't from 1 to 8192"),
    (
        FormatFault::BadRate,
        "the rate's N or D isn't from 1 to 1000000, or N/D isn't from 1 to 300",
    ),
];

const OF_PICTURES: [(PictureFault, &str); 2] = [
    (PictureFault::NoMemory, "the memory was refused"),
    (
        PictureFault::ValueTooLarge,
        "a value has more bits than a sample of the format",
    ),
];

const OF_SOURCES: [(SourceFault, &str); 2] = [
    (SourceFault::Device, "the device failed"),
    (
        SourceFault::Content(5),
        "what the device carries is at fault: number 5 of the source's faults",
    ),
];

const OF_HEADERS: [(RtpFault, &str); 4] = [
    (
        RtpFault::ShortHeader,
        "there are fewer than the 12 octets of an RTP header",
    ),
    (RtpFault::BadVersion, "the RTP version isn't 2"),
    (
        RtpFault::ShortExtension,
        "the list of contributing sources or the header extension isn't whole",
    ),
    (
        RtpFault::BadPadding,
        "the count of the padding is 0, or more than the octets behind the headers",
    ),
];

const OF_PAYLOADS: [(PayloadFault, &str); 8] = [
    (
        PayloadFault::ShortPayloadHeader,
        "the payload header's extended number or the header of a segment isn't whole",
    ),
    (
        PayloadFault::TooManySegments,
        "the third segment's header says that another follows",
    ),
    (
        PayloadFault::SecondField,
        "a segment is of the second field of an interlaced frame",
    ),
    (
        PayloadFault::BadLength,
        "a segment's length is no whole number of pgroups",
    ),
    (
        PayloadFault::BadOffset,
        "a segment's offset isn't at the first pixel of a pgroup",
    ),
    (
        PayloadFault::RowOutside,
        "a segment's row isn't below the height",
    ),
    (
        PayloadFault::ColumnsOutside,
        "a segment's pixels reach beyond the width",
    ),
    (
        PayloadFault::ShortData,
        "there are fewer octets behind the payload header than the segments' lengths in sum",
    ),
];

/// The first and the last of a header and of a payload, whose words stand above.
const REFUSALS: [(Refusal, &str); 6] = [
    (
        Refusal::Header(RtpFault::ShortHeader),
        "there are fewer than the 12 octets of an RTP header",
    ),
    (
        Refusal::Header(RtpFault::BadPadding),
        "the count of the padding is 0, or more than the octets behind the headers",
    ),
    (
        Refusal::WrongPayloadType,
        "the payload type is another than the receiver's",
    ),
    (
        Refusal::WrongSource,
        "a source is pinned, and the datagram has another",
    ),
    (
        Refusal::Payload(PayloadFault::ShortPayloadHeader),
        "the payload header's extended number or the header of a segment isn't whole",
    ),
    (
        Refusal::Payload(PayloadFault::ShortData),
        "there are fewer octets behind the payload header than the segments' lengths in sum",
    ),
];

const OF_OPENINGS: [(OpenFault, &str); 3] = [
    (
        OpenFault::NoMemory,
        "the memory for the frames or for the list of refusals was refused",
    ),
    (
        OpenFault::BadWindow,
        "the window has no timestamp, or more than 16",
    ),
    (
        OpenFault::DoubleTimestamp,
        "a timestamp stands twice in the window",
    ),
];

const OF_SLIDES: [(SlideFault, &str); 2] = [
    (SlideFault::InWindow, "the window has the timestamp already"),
    (
        SlideFault::OtherFormat,
        "the frame that is handed in has another format than the receiver",
    ),
];

const OF_MAPS: [(SeqMapFault, &str); 2] = [
    (SeqMapFault::NoMemory, "the memory for the bits was refused"),
    (SeqMapFault::BadCount, "the count is 0 or above 1048576"),
];

/// A source of datagrams that failed behind two of them.
const STOPPED: ReceiveFault = ReceiveFault {
    delivered: 2,
    fault: SourceFault::Device,
};

#[test]
fn of_formats_devices_and_headers(rt: HostRuntime) {
    met(&rt, all_say(rt.alloc(), &OF_FORMATS));
    met(&rt, all_say(rt.alloc(), &OF_PICTURES));
    met(&rt, all_say(rt.alloc(), &OF_SOURCES));
    met(&rt, all_say(rt.alloc(), &OF_HEADERS));
    met(&rt, all_say(rt.alloc(), &OF_PAYLOADS));
    met(
        &rt,
        says(
            rt.alloc(),
            &DeviceFault,
            "a source or a sink of octets failed",
        ),
    );
    met(
        &rt,
        says(
            rt.alloc(),
            &SinkFault,
            "a sink of datagrams failed, and did not take the datagram",
        ),
    );
}

#[test]
fn of_datagrams_and_receivers(rt: HostRuntime) {
    met(&rt, all_say(rt.alloc(), &REFUSALS));
    met(&rt, all_say(rt.alloc(), &OF_OPENINGS));
    met(&rt, all_say(rt.alloc(), &OF_SLIDES));
    met(&rt, all_say(rt.alloc(), &OF_MAPS));
    met(
        &rt,
        says(rt.alloc(), &OpenedUnlike, "the two were opened unlike"),
    );
    met(
        &rt,
        says(
            rt.alloc(),
            &STOPPED,
            "the source failed after 2 datagrams: the device failed",
        ),
    );
}
