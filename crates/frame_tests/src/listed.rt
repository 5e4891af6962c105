//! The refusals that a receiver lists one by one.
use crate::checks::met;
use crate::two_paths::OTHER_VERSION;
use path_receiver::{Opening, Receiver, Refusal};
use rtp_header::RtpFault;
use st_format::Path;
use std::test::Fail;
use test_kit::small_format::small;

/// What a receiver keeps of a datagram of another version by B and of an empty one by A.
const REFUSED: [(Path, Refusal); 2] = [
    (Path::B, Refusal::Header(RtpFault::BadVersion)),
    (Path::A, Refusal::Header(RtpFault::ShortHeader)),
];

/// Whether a receiver refuses both, and then tells them, the oldest first.
fn keeps_both(receiver: &mut Receiver) -> bool {
    let are_refused = receiver.take(Path::B, OTHER_VERSION).is_err()
        && receiver.take(Path::A, b"").is_err();
    let mut told = receiver.refusals();
    are_refused
        && told.next() == Some(REFUSED[0])
        && told.next() == Some(REFUSED[1])
        && told.next().is_none()
}

#[test]
fn refusals_from_the_oldest(rt: HostRuntime) -> Result<(), Fail> {
    let mut receiver = Opening::new(small()?, 96).window(&[900]).open(rt.alloc())?;
    met(&rt, keeps_both(&mut receiver));
    Ok(())
}
