//! Calls of the processor with each growth refused in turn; and then the same call with memory.
use crate::checks::met;
use bt709_fixed::{ColourFault, RangeKind, to_ycc422, to_ycc444};
use key_mix::{Axis, Job, JobFault, WipeShape, key, run_job, wipe};
use refusing::Refusing;
use st_format::{Depth, Format, Picture, Sampling};
use std::alloc::{Allocator, Global};
use std::process::Abort;
use std::test::Fail;
use test_kit::wanting::{Wanting, grows};

/// A picture of 8 by 2 of one colour.
type Plain = (Sampling, Depth, [u16; 3]);

/// How a picture is made of one, of two or of three.
#[derive(Clone, Copy)]
enum Way {
    ToYcc444,
    ToYcc422,
    Wipe,
    Key,
    Run(Job),
}

/// A way, the colours of the pictures that it may take, and of the one that it makes.
#[derive(Clone, Copy)]
struct Case {
    way: Way,
    from: [Plain; 3],
    to: Plain,
}

/// *matrix*: RGB of 10 bits, and 4:2:2 of 4:4:4.
const RGB: Plain = (Sampling::Rgb, Depth::D10, [940, 64, 64]);

const OF_RGB: Plain = (Sampling::Ycc444, Depth::D10, [250, 409, 960]);

const YCC444: Plain = (Sampling::Ycc444, Depth::D8, [235, 128, 128]);

const OF_YCC444: Plain = (Sampling::Ycc422, Depth::D8, [235, 128, 128]);

/// *gain-and-limit*: gain 8192 of 4:2:2 of 8 bits, and the nominal range of 4:4:4 of 10 bits.
const TO_GAIN: Plain = (Sampling::Ycc422, Depth::D8, [100, 128, 255]);

const GAINED: Plain = (Sampling::Ycc422, Depth::D8, [184, 128, 254]);

const TO_LIMIT: Plain = (Sampling::Ycc444, Depth::D10, [0, 1023, 0]);

const LIMITED: Plain = (Sampling::Ycc444, Depth::D10, [64, 960, 64]);

/// *wipe-weights* at position 0, softness 0: the second picture.
const SHAPE: WipeShape = WipeShape {
    axis: Axis::Columns,
    position: 0,
    soft: 0,
};

const BLACK: Plain = (Sampling::Ycc422, Depth::D8, [16, 128, 16]);

const WHITE: Plain = (Sampling::Ycc422, Depth::D8, [235, 128, 235]);

/// *key-rounds*: the mix of luma 16 and 17 by luma 126, which is 17.
const DARK: Plain = (Sampling::Ycc422, Depth::D8, [16, 1, 16]);

const LIGHT: Plain = (Sampling::Ycc422, Depth::D8, [17, 1, 17]);

const HALF: Plain = (Sampling::Ycc422, Depth::D8, [126, 0, 0]);

/// Each way, by its own call and as a job: the pictures, the one that is made of them, and the
/// least number of growths that it takes.
const CASES: [(Way, [Plain; 3], Plain, u64); 10] = [
    (Way::ToYcc444, [RGB; 3], OF_RGB, 1),
    (Way::ToYcc422, [YCC444; 3], OF_YCC444, 1),
    (Way::Run(Job::ToYcc444), [RGB; 3], OF_RGB, 1),
    (Way::Run(Job::ToYcc422), [YCC444; 3], OF_YCC444, 1),
    (Way::Run(Job::Gain(8192)), [TO_GAIN; 3], GAINED, 1),
    (
        Way::Run(Job::Limit(RangeKind::Nominal)),
        [TO_LIMIT; 3],
        LIMITED,
        1,
    ),
    (Way::Wipe, [BLACK, WHITE, BLACK], WHITE, 2),
    (Way::Run(Job::Wipe(SHAPE)), [BLACK, WHITE, BLACK], WHITE, 2),
    (Way::Key, [DARK, LIGHT, HALF], LIGHT, 2),
    (Way::Run(Job::Key), [DARK, LIGHT, HALF], LIGHT, 2),
];

/// A picture of one colour, 60 frames a second.
fn filled(alloc: Global, colour: Plain) -> Result<Picture, Fail> {
    let (sampling, depth, fill) = colour;
    let format = Format::new(sampling, depth, 8, 2, 60, 1)?;
    Ok(Picture::new(alloc, format, fill)?)
}

/// How many pictures a job takes.
fn input_count(job: &Job) -> usize {
    match job {
        Job::Key => 3,
        Job::Wipe(_) => 2,
        _ => 1,
    }
}

/// Whether a job's picture is of one colour, or `None` where memory was wanted for it.
fn is_plain<A: Allocator>(
    global: Global,
    made: Result<Picture<A>, JobFault>,
    to: Plain,
) -> Result<Option<bool>, Fail> {
    let wanted = filled(global, to)?;
    Ok(match made {
        Ok(picture) => Some(picture.same(&wanted)),
        Err(JobFault::NoMemory) => None,
        Err(_) => Some(false),
    })
}

/// The same of a colour's.
fn coloured<A: Allocator>(made: Result<Picture<A>, ColourFault>) -> Result<Picture<A>, JobFault> {
    match made {
        Ok(picture) => Ok(picture),
        Err(fault) => Err(JobFault::from(fault)),
    }
}

impl Wanting for Case {
    fn answer(&self, global: Global, refusing: &Refusing<Global>) -> Result<Option<bool>, Fail> {
        let [a, b, by] = self.from;
        let inputs = [filled(global, a)?, filled(global, b)?, filled(global, by)?];
        let made = match self.way {
            Way::ToYcc444 => coloured(to_ycc444(refusing, &inputs[0])),
            Way::ToYcc422 => coloured(to_ycc422(refusing, &inputs[0])),
            Way::Wipe => wipe(refusing, &inputs[0], &inputs[1], SHAPE),
            Way::Key => key(refusing, &inputs[0], &inputs[1], &inputs[2]),
            Way::Run(job) => {
                let count = input_count(&job).min(inputs.len());
                run_job(refusing, &job, &inputs[..count])
            }
        };
        is_plain(global, made, self.to)
    }
}

#[test]
fn each_growth_refused(rt: HostRuntime) -> Result<(), Fail> {
    for (way, from, to, least) in CASES {
        met(&rt, grows(rt.alloc(), &Case { way, from, to }, least)?);
    }
    Ok(())
}
