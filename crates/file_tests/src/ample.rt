//! Calls that want memory, of many formats, where there is enough of it: none refuses. They are
//! those that no command makes by itself; the commands are run so by the program's tests.
use crate::checks::met;
use bt709_fixed::{RangeKind, to_ycc422, to_ycc444};
use frame_assembly::{Base, Frame};
use key_mix::{Axis, Job, WipeShape, key, run_job, wipe};
use st_format::{Format, Picture, Sampling};
use std::alloc::Global;
use std::process::Abort;
use std::test::Fail;
use test_kit::small_format::KINDS;

/// A wipe over the first four columns.
const SHAPE: WipeShape = WipeShape {
    axis: Axis::Columns,
    position: 0,
    soft: 4,
};

/// Whether a frame of nothing, copied, settles to a picture of zeros, copied.
fn is_settled(alloc: Global, format: Format) -> Result<bool, Fail> {
    let zeros = Picture::new(alloc, format, [0, 0, 0])?.try_copy(alloc)?;
    let frame = Frame::new(alloc, format)?.try_copy(alloc)?;
    let settled = frame.settle(alloc, Base::<Global>::Fill([0, 0, 0]))?;
    Ok(settled.same(&zeros))
}

/// Whether pictures of zeros have zeros between them by a wipe and by a key of another sampling
/// where theirs has no luma, by their own calls and as jobs.
fn are_mixed(alloc: Global, inputs: &[Picture; 3]) -> Result<bool, Fail> {
    let [a, b, by] = inputs;
    Ok(
        wipe(alloc, a, b, SHAPE)?.same(a)
            && key(alloc, a, b, by)?.same(a)
            && run_job(alloc, &Job::Wipe(SHAPE), &inputs[..2])?.same(a)
            && run_job(alloc, &Job::Key, inputs)?.same(a),
    )
}

/// Whether the first picture is brought to the sampling that is made of its own, or stays within
/// its range where there is none; by its own call and as a job.
fn is_resampled(alloc: Global, inputs: &[Picture; 3]) -> Result<bool, Fail> {
    let (job, made) = match inputs[0].format().sampling() {
        Sampling::Rgb => (Job::ToYcc444, to_ycc444(alloc, &inputs[0])?),
        Sampling::Ycc444 => (Job::ToYcc422, to_ycc422(alloc, &inputs[0])?),
        Sampling::Ycc422 => {
            let job = Job::Limit(RangeKind::VideoData);
            (job, run_job(alloc, &job, &inputs[..1])?)
        }
    };
    Ok(run_job(alloc, &job, &inputs[..1])?.same(&made))
}

/// Widths of 4 to 64, which are whole pgroups of each sampling and depth, and heights of 1 to 3.
#[test]
fn ample_memory(rt: HostRuntime) -> Result<(), Fail> {
    for (sampling, depth) in KINDS {
        let of_key = match sampling {
            Sampling::Rgb => Sampling::Ycc444,
            Sampling::Ycc444 | Sampling::Ycc422 => sampling,
        };
        for size in 0..48u32 {
            let (width, height) = (4 * (size / 3 + 1), size % 3 + 1);
            let format = Format::new(sampling, depth, width, height, 60, 1)?;
            let by = Format::new(of_key, depth, width, height, 60, 1)?;
            let inputs = [
                Picture::new(rt.alloc(), format, [0, 0, 0])?,
                Picture::new(rt.alloc(), format, [0, 0, 0])?,
                Picture::new(rt.alloc(), by, [0, 0, 0])?,
            ];
            met(&rt, is_settled(rt.alloc(), format)?);
            met(&rt, are_mixed(rt.alloc(), &inputs)?);
            met(&rt, is_resampled(rt.alloc(), &inputs)?);
        }
    }
    Ok(())
}
