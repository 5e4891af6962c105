//! The first line of a report.
ghost use Rattle.std.specs.Prelude.{◌≡◌, ◌≤◌, ◌+◌, ◌++◌, length};
ghost use Rattle.frame_report.specs.Opening.{opening_line, raster_text, source_text};

use crate::page::{GATHERED, Page};
use path_receiver::Receiver;
use st_format::Format;
use std::alloc::Allocator;

/// A page with the line of what a receiver was opened with.
pub(crate) fn opening_page<A: Allocator>(receiver: &Receiver<A>) -> Page
    ensures { result ≡ opening_line receiver.now.opening }
{
    let mut page = Page::new();
    page.add(b"receiver ");
    add_raster(&mut page, &receiver.format());
    page.add_number(b" pt ", u64::from(receiver.payload_type()));
    page.add(b" ssrc ");
    add_source(&mut page, receiver.ssrc());
    page.add(b"\n");
    page
}

/// Adds sampling, depth, width, height and rate.
fn add_raster(page: &mut Page, format: &Format)
    requires { length page.old + 256 ≤ GATHERED }
    ensures text { page.new ≡ page.old ++ raster_text format.now }
    ensures short { length page.new ≤ length page.old + 256 }
{
    page.add(format.sampling().word());
    page.add_number(b" ", u64::from(format.depth().bits()));
    page.add_number(b" ", u64::from(format.width()));
    page.add_number(b" ", u64::from(format.height()));
    page.add_number(b" ", u64::from(format.n()));
    page.add_number(b"/", u64::from(format.d()));
}

/// Adds the number of the source that is pinned, or `any` where none is.
fn add_source(page: &mut Page, ssrc: Option<u32>)
    requires { length page.old + 40 ≤ GATHERED }
    ensures text { page.new ≡ page.old ++ source_text ssrc }
    ensures short { length page.new ≤ length page.old + 40 }
{
    match ssrc {
        None => page.add(b"any"),
        Some(ssrc) => page.add_number(b"", u64::from(ssrc)),
    }
}
