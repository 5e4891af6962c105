//! A receiver's report, to a sink.
ghost use Rattle.std.specs.Prelude.{◌≡◌, ◌≤◌, ◌+◌, ◌++◌, OnErr, OnOk, codes, length};
ghost use Rattle.std.specs.Io.KnownBytes.{Appends};
ghost use Rattle.st_format.specs.Device.{AppendsPrefix, CountsFaults, GrowsPart};
ghost use Rattle.frame_report.specs.Gathers.{Gathers, TakesPart, TakesText, told_of};
ghost use Rattle.frame_report.specs.Report.{counts_line, frame_text, frames_text, report_text};

use crate::contested::put_contested;
use crate::fault::ReportFault;
use crate::missing::put_missing;
use crate::opening::opening_page;
use crate::page::{GATHERED, LINE, Page};
use frame_assembly::{Counts, Frame};
use path_receiver::Receiver;
use st_format::{ByteSink, DeviceFault};
use std::alloc::Allocator;

/// Writes what a receiver lacks, as text: a line of what it was opened with; for each timestamp of
/// its window, in window order, a line of how many samples are present, missing and contested, a
/// line for each maximal run of missing pgroups of a row, and a line for each contested
/// sample; and a last line. No memory is taken.
///
/// # Errors
///
/// `Device` where the sink failed: it then has a first part of the text more than before, and not
/// all.
pub fn write_report<A: Allocator, K: ByteSink>(
    receiver: &Receiver<A>,
    sink: &mut K,
) -> Result<(), ReportFault>
    ensures ok { OnOk result
        (K.took sink.new ≡ K.took sink.old ++ report_text receiver.now) }
    ensures fault { OnErr result
        (GrowsPart (K.took sink.old) (K.took sink.new) (report_text receiver.now)) }
    ensures counted { CountsFaults (K.failures sink.old) (K.failures sink.new) result }
    // What a sink holds that tells it grows by the same.
    ensures held { OnOk result
        (Appends (K.held sink.old) (K.held sink.new) (report_text receiver.now)) }
    ensures held_part { OnErr result
        (AppendsPrefix (K.held sink.old) (K.held sink.new) (report_text receiver.now)) }
{
    let mut page = opening_page(receiver);
    put_frames(&mut page, sink, receiver)?;
    write_end(&mut page, sink)?;
    Ok(())
}

/// Writes what a frame lacks, as text: the lines that a report has of it, of this timestamp. No
/// memory is taken.
///
/// # Errors
///
/// `Device` where the sink failed: it then has a first part of the text more than before, and not
/// all.
pub fn write_frame<A: Allocator, K: ByteSink>(
    timestamp: u32,
    frame: &Frame<A>,
    sink: &mut K,
) -> Result<(), ReportFault>
    ensures ok { OnOk result
        (K.took sink.new ≡ K.took sink.old ++ frame_text timestamp frame.now) }
    ensures fault { OnErr result
        (GrowsPart (K.took sink.old) (K.took sink.new) (frame_text timestamp frame.now)) }
    ensures counted { CountsFaults (K.failures sink.old) (K.failures sink.new) result }
    ensures held { OnOk result
        (Appends (K.held sink.old) (K.held sink.new) (frame_text timestamp frame.now)) }
    ensures held_part { OnErr result
        (AppendsPrefix (K.held sink.old) (K.held sink.new) (frame_text timestamp frame.now)) }
{
    let mut page = Page::new();
    put_frame(&mut page, sink, timestamp, frame)?;
    page.write(sink)?;
    Ok(())
}

/// Puts the last line, and writes what waits: a report without `end` isn't whole.
fn write_end<K: ByteSink>(page: &mut Page, sink: &mut K) -> Result<(), DeviceFault>
    ensures ok { OnOk result
        (TakesText (told_of K.took K.held sink.old) (told_of K.took K.held sink.new)
        (page.old ++ codes "end\n")) }
    ensures fault { OnErr result
        (TakesPart (told_of K.took K.held sink.old) (told_of K.took K.held sink.new)
        (page.old ++ codes "end\n")) }
    ensures counted { CountsFaults (K.failures sink.old) (K.failures sink.new) result }
{
    page.make_room(sink)?;
    page.add(b"end\n");
    page.write(sink)
}

/// Puts the lines of the frames, in window order.
fn put_frames<A: Allocator, K: ByteSink>(
    page: &mut Page,
    sink: &mut K,
    receiver: &Receiver<A>,
) -> Result<(), DeviceFault>
    ensures ok { OnOk result
        (Gathers (told_of K.took K.held sink.old) (told_of K.took K.held sink.new) page.old page.new
        (frames_text receiver.now)) }
    ensures fault { OnErr result
        (TakesPart (told_of K.took K.held sink.old) (told_of K.took K.held sink.new)
        (page.old ++ frames_text receiver.now)) }
    ensures counted { CountsFaults (K.failures sink.old) (K.failures sink.new) result }
{
    for timestamp in receiver.window() {
        put_frame(page, sink, *timestamp, receiver.frame(*timestamp).unwrap())?;
    }
    Ok(())
}

/// Puts what is said of a frame: its counts, its missing pgroups, its contested samples.
fn put_frame<A: Allocator, K: ByteSink>(
    page: &mut Page,
    sink: &mut K,
    timestamp: u32,
    frame: &Frame<A>,
) -> Result<(), DeviceFault>
    ensures ok { OnOk result
        (Gathers (told_of K.took K.held sink.old) (told_of K.took K.held sink.new) page.old page.new
        (frame_text timestamp frame.now)) }
    ensures fault { OnErr result
        (TakesPart (told_of K.took K.held sink.old) (told_of K.took K.held sink.new)
        (page.old ++ frame_text timestamp frame.now)) }
    ensures counted { CountsFaults (K.failures sink.old) (K.failures sink.new) result }
{
    let counts = frame.counts();
    put_counts(page, sink, timestamp, counts)?;
    put_missing(page, sink, frame, counts.missing)?;
    put_contested(page, sink, frame, counts.contested)
}

/// Puts the line of a frame's counts, where it has place.
fn put_counts<K: ByteSink>(
    page: &mut Page,
    sink: &mut K,
    timestamp: u32,
    counts: Counts,
) -> Result<(), DeviceFault>
    ensures ok { OnOk result
        (Gathers (told_of K.took K.held sink.old) (told_of K.took K.held sink.new) page.old page.new
        (counts_line timestamp counts)) }
    ensures fault { OnErr result
        (TakesPart (told_of K.took K.held sink.old) (told_of K.took K.held sink.new)
        (page.old ++ counts_line timestamp counts)) }
    ensures counted { CountsFaults (K.failures sink.old) (K.failures sink.new) result }
{
    page.make_room(sink)?;
    add_counts(page, timestamp, counts);
    Ok(())
}

fn add_counts(page: &mut Page, timestamp: u32, counts: Counts)
    requires { length page.old + LINE ≤ GATHERED }
    ensures { page.new ≡ page.old ++ counts_line timestamp counts }
{
    page.add_number(b"frame ", u64::from(timestamp));
    page.add_number(b" present ", counts.present);
    page.add_number(b" missing ", counts.missing);
    page.add_number(b" contested ", counts.contested);
    page.add(b"\n");
}
