//! The marked view of a frame.
ghost use Rattle.std.specs.Prelude.{◌≡◌, ◌<◌, ◌*◌, ◌-◌, IfOk};
ghost use Rattle.st_format.specs.Fields.{fields_of};
ghost use Rattle.st_format.specs.Picture.{IsPicture};
ghost use Rattle.marked_view.specs.Marked.{eight_bits, has_all, pixel_seen};
ghost use Rattle.marked_view.specs.Marked.{pixels_seen, seen_cells, shown, view_fields};

use frame_assembly::Frame;
use st_format::{Cell, Depth, Format, Picture, Sampling};
use std::alloc::{AllocError, Allocator};

/// A frame as a picture of R, G and B of 8 bits, to look at: a pixel is magenta where a sample of
/// it is missing, red where one is contested and none is missing, and else its luma as grey, or its
/// R, G and B, of which the eight greatest bits count. The samples of a pixel are those that stand
/// at its column.
///
/// `AllocError` comes only where the allocator refused the memory for the picture.
pub fn marked_picture<A: Allocator, B: Allocator>(
    alloc: A,
    frame: &Frame<B>,
) -> Result<Picture<A>, AllocError>
    ensures format { IfOk result (λ p. fields_of p.format ≡ view_fields frame.now.format) }
    ensures seen { IfOk result (λ p. p.samples
        ≡ pixels_seen frame.now (frame.now.format.width * frame.now.format.height)) }
    ensures whole { IfOk result (λ p. IsPicture p) }
{
    let format = frame.format();
    let width = format.width() as usize;
    let count = width * format.height() as usize;
    let mut samples = Vec::with_capacity(alloc, 3 * count)?;
    for k in 0..count {
        let pixel = seen(frame, (k / width) as u32, (k % width) as u32);
        samples.extend_from_slice(&pixel)?;
    }
    Ok(Picture::from_samples(view_format(&format), samples))
}

/// The format of a view: R, G and B of 8 bits, of the same size and rate.
fn view_format(format: &Format) -> Format
    ensures { fields_of result ≡ view_fields format.now }
{
    Format {
        sampling: Sampling::Rgb,
        depth: Depth::D8,
        width: format.width,
        height: format.height,
        n: format.n,
        d: format.d,
    }
}

/// R, G and B of a pixel.
#[tactic(auto, unfolding(crate::specs::Marked::pixel_seen))]
fn seen<B: Allocator>(frame: &Frame<B>, row: u32, column: u32) -> [u16; 3]
    requires row { row < frame.now.format.height }
    requires column { column < frame.now.format.width }
    ensures { result ≡ pixel_seen frame.now row column }
{
    let format = frame.format();
    let has_all = has_all(format.sampling(), column);
    let first = frame.cell(row, column, 0);
    let second = frame.cell(row, column, if has_all { 1 } else { 0 });
    let third = frame.cell(row, column, if has_all { 2 } else { 0 });
    seen_cells(format.sampling(), format.depth(), first, second, third)
}

/// Whether all three components stand at a column.
fn has_all(sampling: Sampling, column: u32) -> bool
    ensures { result ≡ has_all sampling column }
{
    match sampling {
        Sampling::Ycc422 => column % 2 == 0,
        Sampling::Ycc444 | Sampling::Rgb => true,
    }
}

/// R, G and B of a pixel of these cells.
fn seen_cells(sampling: Sampling, depth: Depth, a: Cell, b: Cell, c: Cell) -> [u16; 3]
    ensures { result ≡ seen_cells sampling depth a b c }
{
    match (a, b, c) {
        (Cell::Missing, _, _) | (_, Cell::Missing, _) | (_, _, Cell::Missing) => [255, 0, 255],
        (Cell::Value(x), Cell::Value(y), Cell::Value(z)) => shown(sampling, depth, x, y, z),
        _ => [255, 0, 0],
    }
}

/// R, G and B of a pixel of these values.
fn shown(sampling: Sampling, depth: Depth, x: u16, y: u16, z: u16) -> [u16; 3]
    ensures { result ≡ shown sampling depth x y z }
{
    match sampling {
        Sampling::Ycc422 | Sampling::Ycc444 => {
            let luma = eight_bits(depth, x);
            [luma, luma, luma]
        }
        Sampling::Rgb => [
            eight_bits(depth, x),
            eight_bits(depth, y),
            eight_bits(depth, z),
        ],
    }
}

/// The eight greatest bits of a value.
fn eight_bits(depth: Depth, value: u16) -> u16
    ensures { result ≡ eight_bits depth value }
{
    match depth {
        Depth::D8 => value,
        Depth::D10 => value / 4,
        Depth::D12 => value / 16,
        Depth::D16 => value / 256,
    }
}
