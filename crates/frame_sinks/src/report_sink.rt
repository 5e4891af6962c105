//! A sink of frames that writes what each lacks.
use follow_engine::PictureSink;
use frame_assembly::Frame;
use frame_report::write_frame;
use run_outcome::Fault;
use st_format::ByteSink;
use std::alloc::Allocator;

/// Writes of each frame that it is shown, into a sink of octets, what a receiver's report has of
/// it: a line of how many samples are present, missing and contested, and below it the lines of
/// those that are missing or contested. No memory is taken.
#[derive(Drop)]
pub struct ReportSink<K: ByteSink + Drop> {
    /// What the octets go to.
    pub sink: K,
}

impl<K: ByteSink + Drop> PictureSink for ReportSink<K> {
    ghost use Rattle.frame_sinks.specs.Sinks.{FailsLines, TakesLines};

    ghost takes = { λ k h l. TakesLines K.took k h l };

    ghost fails = { λ k h l. FailsLines K.took k h l };

    ghost failures = { λ k. K.failures k.sink };

    fn show<A: Allocator>(&mut self, timestamp: u32, frame: &Frame<A>) -> Result<(), Fault> {
        match write_frame(timestamp, frame, &mut self.sink) {
            Ok(()) => Ok(()),
            Err(_) => Err(Fault::Device),
        }
    }
}
