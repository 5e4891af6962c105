//! Pictures that are read and made with each growth refused in turn; and then with memory.
use crate::checks::{met, sink, source};
use follow_engine::PictureSink;
use frame_assembly::Frame;
use frame_sinks::{Filling, FormSink};
use marked_view::marked_picture;
use picture_forms::{FormFault, read_pixmap_raster, read_y4m_frame};
use refusing::Refusing;
use run_outcome::Fault;
use st_format::{Depth, Format, Sampling};
use std::alloc::{Allocator, Global};
use std::test::Fail;
use test_kit::wanting::{Wanting, growths};

/// A picture that is read or made.
#[derive(Clone, Copy)]
enum Making {
    /// A frame of a stream.
    Frame,
    /// The samples of a pixmap.
    Raster,
    /// The marked view of a frame.
    View,
    /// What a sink writes of frames.
    Shown(Filling),
}

/// Whether a frame of 2 by 1 pixels is read, or `None` where memory is wanted.
fn reads_frame<A: Allocator>(global: Global, alloc: A) -> Result<Option<bool>, Fail> {
    let format = Format::new(Sampling::Ycc422, Depth::D8, 2, 1, 25, 1)?;
    let mut source = source(global, b"FRAME\n\x02\x04\x01\x03".as_slice(), 0)?;
    match format.sampling() {
        Sampling::Ycc422 | Sampling::Ycc444 => {
            match read_y4m_frame(alloc, &mut source, &format) {
                Ok(Some(picture)) => Ok(Some(picture.samples() == [1u16, 2, 3, 4].as_slice())),
                Err(FormFault::NoMemory) => Ok(None),
                _ => Ok(Some(false)),
            }
        }
        Sampling::Rgb => Ok(Some(false)),
    }
}

/// Whether the samples of a pixmap of 2 by 1 pixels are read, or `None` where memory is wanted.
fn reads_raster<A: Allocator>(global: Global, alloc: A) -> Result<Option<bool>, Fail> {
    let format = Format::new(Sampling::Rgb, Depth::D8, 2, 1, 25, 1)?;
    let mut source = source(global, b"\x01\x02\x03\x04\x05\x06".as_slice(), 0)?;
    match format.sampling() {
        Sampling::Rgb => match read_pixmap_raster(alloc, &mut source, &format) {
            Ok(picture) => Ok(Some(picture.samples() == [1u16, 2, 3, 4, 5, 6].as_slice())),
            Err(FormFault::NoMemory) => Ok(None),
            Err(_) => Ok(Some(false)),
        },
        Sampling::Ycc422 | Sampling::Ycc444 => Ok(Some(false)),
    }
}

/// Whether the view of a frame of which nothing is known is magenta, or `None` where memory is
/// wanted.
fn makes_view<A: Allocator>(global: Global, alloc: A) -> Result<Option<bool>, Fail> {
    let format = Format::new(Sampling::Ycc422, Depth::D10, 2, 1, 25, 1)?;
    let frame = Frame::new(global, format)?;
    match marked_picture(alloc, &frame) {
        Ok(view) => Ok(Some(view.samples() == [255u16, 0, 255, 255, 0, 255].as_slice())),
        Err(_) => Ok(None),
    }
}

/// Whether three frames are written, or `None` where memory is wanted.
fn shows<A: Allocator + Copy>(
    global: Global,
    alloc: A,
    filling: Filling,
) -> Result<Option<bool>, Fail> {
    let format = Format::new(Sampling::Ycc422, Depth::D10, 2, 1, 25, 1)?;
    let frame = Frame::new(global, format)?;
    let mut pictures = FormSink::new(alloc, filling, None, sink(global)?);
    for timestamp in 0..3 {
        match pictures.show(timestamp, &frame) {
            Ok(()) => {}
            Err(Fault::Memory) => return Ok(None),
            Err(_) => return Ok(Some(false)),
        }
    }
    Ok(Some(true))
}

impl Wanting for Making {
    fn answer(&self, global: Global, refusing: &Refusing<Global>) -> Result<Option<bool>, Fail> {
        match self {
            Making::Frame => reads_frame(global, refusing),
            Making::Raster => reads_raster(global, refusing),
            Making::View => makes_view(global, refusing),
            Making::Shown(filling) => shows(global, refusing, *filling),
        }
    }
}

/// Each takes one growth. Of any number of frames those that go by planes take none, and where
/// pictures are held two.
#[test]
fn one_each(rt: HostRuntime) -> Result<(), Fail> {
    for making in &[Making::Frame, Making::Raster, Making::View] {
        met(&rt, growths(rt.alloc(), making)? == Some(1));
    }
    let filled = growths(rt.alloc(), &Making::Shown(Filling::Fill))?;
    met(&rt, filled == Some(0));
    let held = growths(rt.alloc(), &Making::Shown(Filling::Hold))?;
    met(&rt, held == Some(2));
    Ok(())
}
