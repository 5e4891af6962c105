//! The jobs of the processor, beside a copy of their inputs' samples and the same as plain loops.
//! A job and a plain loop both make their result in memory that they ask for.
use crate::fault::Fault;
use crate::plain;
use crate::streams::{Change, picture};
use bt709_fixed::RangeKind;
use key_mix::{Axis, Job, WipeShape, run_job};
use st_format::{Depth, Format, Picture, Sampling};
use std::alloc::Global;
use std::time::Instant;

/// The jobs, and what they take: a sampling, and how many pictures.
pub const JOBS: [(&str, Job, Sampling, usize); 6] = [
    ("limit", Job::Limit(RangeKind::Nominal), Sampling::Ycc422, 1),
    ("gain", Job::Gain(5000), Sampling::Ycc422, 1),
    ("to 4:4:4", Job::ToYcc444, Sampling::Rgb, 1),
    ("to 4:2:2", Job::ToYcc422, Sampling::Ycc444, 1),
    ("wipe", Job::Wipe(SHAPE), Sampling::Ycc422, 2),
    ("key", Job::Key, Sampling::Ycc422, 3),
];

const SHAPE: WipeShape = WipeShape {
    axis: Axis::Columns,
    position: 2,
    soft: 40,
};

/// What is measured of a job.
#[derive(Clone, Copy)]
pub enum Way {
    /// A copy of its inputs' samples.
    Copy,
    /// The job's call.
    Call,
    /// The formula in a plain loop.
    Plain,
}

/// What was made, which is let go once the clock was read.
#[derive(Drop)]
enum Made {
    Nothing,
    Picture(Picture),
    Samples(Vec<u16>),
}

/// Three pictures, and room for the samples of all.
#[derive(Drop)]
pub struct Inputs {
    pictures: [Picture; 3],
    room: Vec<u16>,
}

impl Inputs {
    pub fn new(alloc: Global, format: Format) -> Result<Inputs, Fault> {
        let count = format.sample_count();
        Ok(Inputs {
            pictures: [
                picture(alloc, format, Change(0, 1))?,
                picture(alloc, format, Change(3, 1))?,
                picture(alloc, format, Change(5, 1))?,
            ],
            room: Vec::from_elem(alloc, 0u16, count.wrapping_mul(3))?,
        })
    }

    /// The nanoseconds of the best round of a job of the first `count` pictures.
    pub fn best(
        &mut self,
        rt: &HostRuntime,
        job: &Job,
        count: usize,
        way: Way,
        rounds: u32,
    ) -> Result<u64, Fault> {
        let mut best = u64::MAX;
        for _ in 0..rounds {
            let start = Instant::now(rt)?;
            let made = self.make(rt.alloc(), job, count, way)?;
            let spent = start.elapsed(rt)?.as_nanos();
            best = best.min(u64::try_from(spent).unwrap_or(u64::MAX));
            drop(made);
        }
        Ok(best)
    }

    fn make(&mut self, alloc: Global, job: &Job, count: usize, way: Way) -> Result<Made, Fault> {
        match way {
            Way::Call => {
                let inputs = self.pictures.get(..count).ok_or(Fault)?;
                let picture = run_job(alloc, job, inputs).ok().ok_or(Fault)?;
                Ok(Made::Picture(picture))
            }
            Way::Copy => {
                self.room.clear();
                for picture in self.pictures.iter().take(count) {
                    self.room.extend_from_slice(picture.samples())?;
                }
                Ok(Made::Nothing)
            }
            Way::Plain => Ok(Made::Samples(self.looped(alloc, job)?)),
        }
    }

    /// What a plain loop makes by the job's formula.
    fn looped(&self, alloc: Global, job: &Job) -> Result<Vec<u16>, Fault> {
        let [a, b, by] = &self.pictures;
        let scale = match a.format().depth() {
            Depth::D8 => 1,
            Depth::D10 => 4,
            Depth::D12 => 16,
            Depth::D16 => 256,
        };
        let inputs = [a.samples(), b.samples(), by.samples()];
        let count = match job {
            Job::ToYcc422 => a.samples().len() / 6 * 4,
            _ => a.samples().len(),
        };
        let mut out = Vec::from_elem(alloc, 0u16, count)?;
        plain::run(job, scale, inputs, out.as_mut_slice());
        Ok(out)
    }
}
