//! Planes that are spelled by pgroups, as a YUV4MPEG2 stream has them.
ghost use Rattle.std.specs.Prelude.{◌≡◌, ◌≤◌, ◌<◌, ◌*◌, length};
ghost use Rattle.std.specs.List.{All};
ghost use Rattle.picture_forms.specs.Layouts.{IsYcc, y4m_spelling};
ghost use Rattle.picture_forms.specs.Planes.{sample_limit};
ghost use Rattle.settled_forms.specs.Pieces.{group_share, octets_for, part_text, row_size};
ghost use Rattle.st_format.specs.Pgroup.{pixel_group};
ghost use Rattle.st_format.specs.Position.{group_count};

use picture_forms::{spell, spelling_of, stride_of};
use st_format::{Format, Sampling};

/// Spells the samples that pgroups have of a component into `octets`, which has just the room.
pub(crate) fn spell_groups(
    format: &Format,
    component: u8,
    count: usize,
    samples: &[u16],
    octets: &mut [u8],
)
    requires ycc { IsYcc format.now.sampling }
    requires component { component < 3 }
    requires few { count ≤ group_count format.now }
    requires samples { length samples.now
        ≡ (pixel_group format.now.sampling format.now.depth).samples * count }
    requires fit { All (λ v. v < sample_limit (y4m_spelling format.now.depth)) samples.now }
    requires room { length octets.old
        ≡ octets_for format.now (group_share format.now component * count) }
    ensures { octets.new
        ≡ part_text format.now component samples.now (group_share format.now component * count) }
{
    let spelling = spelling_of(format.depth());
    let stride = stride_of(format.sampling(), component);
    spell(
        spelling,
        samples,
        stride,
        0,
        share_of(format, component) * count,
        octets,
    );
}

/// How many octets the samples of a component take that a row has: at most 16,384.
pub(crate) fn row_octets_of(format: &Format, component: u8) -> usize
    requires { component < 3 }
    ensures value { result ≡ row_size format.now component }
    ensures some { 0 < result }
    ensures few { result ≤ 16384 }
{
    let of_row = share_of(format, component) * format.row_groups() as usize;
    spelling_of(format.depth()).size() * of_row
}

/// How many samples of a component a pgroup has.
fn share_of(format: &Format, component: u8) -> usize
    requires { component < 3 }
    ensures value { result ≡ group_share format.now component }
    ensures few { result ≤ 4 }
{
    let pixels = format.pgroup().pixels as usize;
    match (format.sampling(), component) {
        (Sampling::Ycc422, 1 | 2) => pixels / 2,
        _ => pixels,
    }
}
