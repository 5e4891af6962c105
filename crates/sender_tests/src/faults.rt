//! The words of each fault of SDP texts, plans, schedules and jobs.
use crate::checks::met;
use bt709_fixed::ColourFault;
use key_mix::{JobFault, SendJobFault};
use packet_plan::{PlanFault, SendFault};
use path_receiver::PlayFault;
use sdp_format::{FlowsFault, Located, Place, SdpFault};
use test_kit::words::{all_say, says};

const OF_TEXTS: [(SdpFault, &str); 17] = [
    (SdpFault::NoMemory, "the memory was refused"),
    (SdpFault::NoVideo, "no media section is a video section"),
    (
        SdpFault::TooManyLegs,
        "there are more than two video sections",
    ),
    (
        SdpFault::BadMediaLine,
        "a video section's first line isn't m=video PORT RTP/AVP PT",
    ),
    (
        SdpFault::NoRtpmap,
        "no line of the section begins a=rtpmap:PT and a space",
    ),
    (
        SdpFault::NotRaw90000,
        "the first line a=rtpmap:PT doesn't say raw/90000",
    ),
    (
        SdpFault::NoFmtp,
        "no line of the section begins a=fmtp:PT and a space",
    ),
    (
        SdpFault::BadParameter,
        "an item of a=fmtp:PT has no name, or a value that isn't of its name's form",
    ),
    (
        SdpFault::DoubleParameter,
        "two items of a=fmtp:PT have one name",
    ),
    (
        SdpFault::MissingParameter,
        "sampling, width, height, exactframerate, depth, colorimetry, PM or SSN is missing",
    ),
    (
        SdpFault::UnsupportedSampling,
        "the sampling is another than 4:2:2, 4:4:4 and RGB",
    ),
    (
        SdpFault::UnsupportedDepth,
        "the depth is another than 8, 10, 12 and 16",
    ),
    (SdpFault::Interlaced, "interlace or segmented is there"),
    (
        SdpFault::UnsupportedPacking,
        "the packing mode is another than general packing mode",
    ),
    (
        SdpFault::BadSsn,
        "the value of SSN doesn't begin ST2110-20 and a colon",
    ),
    (SdpFault::BadFormat, "no format has this size and rate"),
    (
        SdpFault::LegsDiffer,
        "two sections differ in more than their ports",
    ),
];

/// A fault of the third line of a text, and one that has no line.
const PLACED: [(Located, &str); 2] = [
    (
        Located {
            fault: SdpFault::BadFormat,
            place: Some(Place {
                line: 3,
                start: 46,
                end: 160,
            }),
        },
        "line 3: no format has this size and rate",
    ),
    (
        Located {
            fault: SdpFault::NoVideo,
            place: None,
        },
        "no media section is a video section",
    ),
];

const OF_FLOWS: [(FlowsFault, &str); 4] = [
    (FlowsFault::NoVideo, "no media section is a video section"),
    (
        FlowsFault::TooManyLegs,
        "there are more than two video sections",
    ),
    (
        FlowsFault::BadMediaLine,
        "a video section's first line isn't m=video PORT RTP/AVP PT",
    ),
    (
        FlowsFault::BadConnection,
        "a section's c= line isn't c=IN IP4 ADDRESS or c=IN IP6 ADDRESS",
    ),
];

const OF_PLANS: [(PlanFault, &str); 2] = [
    (PlanFault::NoMemory, "the memory was refused"),
    (
        PlanFault::BadPacketSize,
        "the greatest size of a packet is below 20 octets and a pgroup, or above 9000",
    ),
];

const OF_SCHEDULES: [(PlayFault, &str); 6] = [
    (PlayFault::NoMemory, "the memory was refused"),
    (
        PlayFault::BadEvent(7),
        "the event at place 7, counted from 0, is not admitted after those before it",
    ),
    (
        PlayFault::BadWindow,
        "the window has no timestamp, or more than 16",
    ),
    (
        PlayFault::DoubleTimestamp,
        "a timestamp stands twice in the window",
    ),
    (
        PlayFault::BadPictures,
        "there are more than 10000 pictures, or one of another format than the plan's",
    ),
    (
        PlayFault::BadReceivers,
        "there is no receiver, or there are more than 8",
    ),
];

/// A sink that failed behind two datagrams.
const STOPPED: SendFault = SendFault { sent: 2 };

const OF_COLOURS: [(ColourFault, &str); 3] = [
    (ColourFault::NoMemory, "the memory was refused"),
    (ColourFault::NotRgb, "the picture isn't of R, G and B"),
    (
        ColourFault::NotYcc444,
        "the picture isn't of Y, Cb and Cr at each column",
    ),
];

const OF_JOBS: [(JobFault, &str); 8] = [
    (JobFault::NoMemory, "the memory was refused"),
    (
        JobFault::FormatsDiffer,
        "the first two pictures differ in format, or the key in size, depth or rate",
    ),
    (
        JobFault::KeyNotYcc,
        "the key is of R, G and B, and so has no luma",
    ),
    (
        JobFault::BadWipe,
        "the wipe's position or softness is above the width or height that its axis names",
    ),
    (JobFault::NotRgb, "the picture isn't of R, G and B"),
    (
        JobFault::NotYcc444,
        "the picture isn't of Y, Cb and Cr at each column",
    ),
    (
        JobFault::WrongInputCount,
        "there are more or fewer pictures than the job takes",
    ),
    (JobFault::BadGain, "the gain is above 16384"),
];

const OF_SENDING: [(SendJobFault, &str); 3] = [
    (
        SendJobFault::Job(JobFault::BadGain),
        "there is no picture: the gain is above 16384",
    ),
    (
        SendJobFault::BadPacketSize,
        "the greatest size of a packet is below 20 octets and a pgroup, or above 9000",
    ),
    (
        SendJobFault::Sink { sent: 2 },
        "the sink failed after 2 datagrams of the picture",
    ),
];

#[test]
fn of_texts_and_schedules(rt: HostRuntime) {
    met(&rt, all_say(rt.alloc(), &OF_TEXTS));
    met(&rt, all_say(rt.alloc(), &PLACED));
    met(&rt, all_say(rt.alloc(), &OF_FLOWS));
    met(&rt, all_say(rt.alloc(), &OF_PLANS));
    met(&rt, all_say(rt.alloc(), &OF_SCHEDULES));
}

#[test]
fn of_colours_jobs_and_sending(rt: HostRuntime) {
    met(&rt, all_say(rt.alloc(), &OF_COLOURS));
    met(&rt, all_say(rt.alloc(), &OF_JOBS));
    met(&rt, all_say(rt.alloc(), &OF_SENDING));
    met(
        &rt,
        says(
            rt.alloc(),
            &STOPPED,
            "the sink failed after 2 datagrams of the picture",
        ),
    );
}
