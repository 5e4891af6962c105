//! What each fault says was wanted where it comes, of those that the program's tests don't print.
use crate::checks::met;
use key_mix::JobFault;
use packet_plan::PlanFault;
use path_receiver::{OpenFault, PlayFault, SeqMapFault};
use sdp_format::SdpFault;

const MEMORY: &str = "more memory than there is";

const MISSING: &str =
    "sampling, width, height, exactframerate, depth, colorimetry, PM and SSN in a=fmtp:PT";

#[test]
fn wanted_of_memory_and_parameters(rt: HostRuntime) {
    met(&rt, SdpFault::NoMemory.wanted() == MEMORY);
    met(&rt, OpenFault::NoMemory.wanted() == MEMORY);
    met(&rt, PlayFault::NoMemory.wanted() == MEMORY);
    met(&rt, SeqMapFault::NoMemory.wanted() == MEMORY);
    met(&rt, PlanFault::NoMemory.wanted() == MEMORY);
    met(&rt, JobFault::NoMemory.wanted() == MEMORY);
    met(&rt, SdpFault::MissingParameter.wanted() == MISSING);
}
