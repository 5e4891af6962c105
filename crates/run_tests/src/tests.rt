//! Runs that the laws say write one file.
use crate::checks::met;
use crate::made::{
    BOTH, LOWER_BY_A, LOWER_BY_B, LOWER_ROW, SDP, UPPER_BY_A, UPPER_BY_B, UPPER_ROW, capture, sink,
    source,
};
use crate::{merge_and_receive, receive_twice};
use capture_engines::Wanted;
use std::test::Fail;

const WANTED: Wanted<'static> = Wanted {
    window: b"900",
    ssrc: b"any",
    tells_refusals: false,
};

/// The rows by one path each in one capture; and in two captures, the lower first, the upper by
/// both paths, and one again.
#[test]
fn cut_ordered_and_repeated(rt: HostRuntime) -> Result<(), Fail> {
    let alloc = rt.alloc();
    let mut captures = [capture(alloc, &[UPPER_BY_A, LOWER_BY_B])?];
    let mut others = [
        capture(alloc, &[LOWER_BY_B, LOWER_BY_A, LOWER_BY_B])?,
        capture(alloc, &[UPPER_BY_B, LOWER_BY_A, UPPER_BY_A])?,
    ];
    let (mut state, mut other, mut output) = (sink(alloc)?, sink(alloc)?, sink(alloc)?);
    let ended = receive_twice(
        alloc,
        WANTED,
        &mut Some(source(alloc, SDP)?),
        &mut captures,
        &mut state,
        &mut Some(source(alloc, SDP)?),
        &mut others,
        &mut other,
        &mut output,
    );
    met(&rt, ended.is_ok());
    met(&rt, state.held() == BOTH && other.held() == BOTH);
    Ok(())
}

/// A file of each row, merged, and both rows received at once.
#[test]
fn in_pieces(rt: HostRuntime) -> Result<(), Fail> {
    let alloc = rt.alloc();
    let (mut upper, mut lower) = (source(alloc, UPPER_ROW)?, source(alloc, LOWER_ROW)?);
    let mut captures = [capture(alloc, &[LOWER_BY_A, UPPER_BY_B])?];
    let (mut merged, mut state, mut output) = (sink(alloc)?, sink(alloc)?, sink(alloc)?);
    let ended = merge_and_receive(
        alloc,
        WANTED,
        &mut upper,
        &mut lower,
        &mut merged,
        &mut Some(source(alloc, SDP)?),
        &mut captures,
        &mut state,
        &mut output,
    );
    met(&rt, ended.is_ok());
    met(&rt, merged.held() == BOTH && state.held() == BOTH);
    Ok(())
}
