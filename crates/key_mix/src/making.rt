//! A job's picture that is made as it is sent, some pgroups at a time, and never kept.
ghost use Rattle.std.specs.Prelude.{◌≡◌, ◌≤◌, ◌+◌, ◌*◌, ◌∷◌, [], IfSome, drop, length, take};
ghost use Rattle.std.specs.Prelude.{EachIndex, slice_index};
ghost use Rattle.std.specs.List.{AllByRecursion};
ghost use Rattle.st_format.specs.Pgroup.{bits_of, pixel_group};
ghost use Rattle.st_format.specs.Picture.{IsPicture};
ghost use Rattle.st_format.specs.Position.{group_count};
ghost use Rattle.st_format.specs.Samples.{Spells, octets_in};
ghost use Rattle.bt709_fixed.specs.Operations.{IsResampled};
ghost use Rattle.st_format.specs.declared.sampling.Sampling.TheVariants.{Rgb, Ycc444};
ghost use Rattle.key_mix.specs.Jobs.{IsJobFormat, IsJobPicture};
ghost use Rattle.key_mix.specs.Made.{AreMadeOf, keyed_number, matrixed_number, settled};
ghost use Rattle.key_mix.specs.Sending.{HasBase, input_formats, settled_inputs};
ghost use Rattle.key_mix.specs.declared.Job.TheVariants.{Key, ToYcc444};

use crate::keys::row_keys;
use crate::source::Source;
use crate::{Job, JobInput};
use bt709_fixed::scale_of;
use packet_plan::{PacketRun, Raster};
use pgroup_pack::pack;
use st_format::{Format, Sampling, are_octets};
use std::alloc::{Allocator, Global};
use std::marker::Model;

/// How many samples are made at a time: a pgroup has 12 or fewer.
const PART: usize = 768;

/// Room for the samples of a part of each of four kinds: two inputs, keys, and what is made.
const ROOM: usize = 3072;

/// How many samples a short part has at most: room for it is made in a third of the time.
const SHORT_PART: usize = 256;

/// Room for a short part of each of the four kinds.
const SHORT_ROOM: usize = 1024;

/// What the samples of a picture are made of.
#[derive(Drop)]
enum Making<'a, A: Allocator> {
    /// Two inputs, mixed by the lumas of a third: all of one format.
    Keyed(Source<'a, A>, Source<'a, A>, Source<'a, A>),
    /// An input of R, G and B, which become Y, Cb and Cr.
    Matrixed(Source<'a, A>),
}

/// A job's picture whose samples are made of its inputs' frames where they are asked for. Contracts
/// see it as its values, as they see a picture that is kept.
#[derive(Drop)]
pub(crate) struct MadePicture<'a, A: Allocator = Global> {
    format: Format,
    making: Making<'a, A>,
}

impl<'a, A: Allocator> Model for MadePicture<'a, A> {
    ghost use Rattle.st_format.specs.Picture.{Values};
    ghost use Rattle.key_mix.specs.Made.{IsMade, made_picture};

    ghost Value = { Values };

    ghost view = { λ p. made_picture p.format p.making };

    ghost invariant = { λ p. IsMade p.format p.making };
}

impl<'a, A: Allocator> MadePicture<'a, A> {
    /// The job's picture of inputs, where it is made so: a key of inputs that all have one format,
    /// and Y, Cb and Cr at each column.
    pub(crate) fn of(
        job: &Job,
        inputs: &[JobInput<'a, A>],
        format: Format,
    ) -> Option<MadePicture<'a, A>>
        requires bases { AllByRecursion HasBase inputs.now }
        requires format { IsJobFormat format job.now (input_formats inputs.now) }
        ensures made { IfSome result (λ p. IsJobPicture p job.now (settled_inputs inputs.now)) }
        ensures whole { IfSome result (λ p. IsPicture p) }
        ensures format { IfSome result (λ p. p.format ≡ format) }
    {
        match (job, inputs) {
            (Job::Key, [a, b, by]) => keyed(a, b, by, format),
            (Job::ToYcc444, [rgb]) => matrixed(rgb, format),
            _ => None,
        }
    }

    /// Makes the samples of `count` pgroups, from the one of number `first` in raster order.
    /// `rooms` has room for three times as many.
    fn make(&self, first: usize, count: usize, rooms: &mut [u16], out: &mut [u16])
        requires inside { first + count ≤ group_count self.now.format }
        requires few { length out.old ≤ 768 }
        requires rooms { 3 * length out.old ≤ length rooms.old }
        requires room { length out.old
            ≡ (pixel_group self.now.format.sampling self.now.format.depth).samples * count }
        ensures { out.new
            ≡ take ((pixel_group self.now.format.sampling self.now.format.depth).samples * count)
            (drop ((pixel_group self.now.format.sampling self.now.format.depth).samples * first)
            self.now.samples) }
    {
        match &self.making {
            Making::Keyed(a, b, by) => make_keyed(a, b, by, first, count, rooms, out),
            Making::Matrixed(rgb) => make_matrixed(rgb, first, count, rooms, out),
        }
    }

    /// Writes the octets of the same pgroups. `rooms` has room for four times as many samples.
    #[inline(always)]
    fn write_part_in(&self, first: usize, count: usize, rooms: &mut [u16], octets: &mut [u8])
        requires inside { first + count ≤ group_count self.now.format }
        requires few { (pixel_group self.now.format.sampling self.now.format.depth).samples * count
            ≤ 768 }
        requires rooms { 4 * ((pixel_group self.now.format.sampling self.now.format.depth).samples
            * count) ≤ length rooms.old }
        requires room { length octets.old
            ≡ (pixel_group self.now.format.sampling self.now.format.depth).octets * count }
        ensures { Spells (bits_of self.now.format.depth) octets.new
            (take ((pixel_group self.now.format.sampling self.now.format.depth).samples * count)
            (drop ((pixel_group self.now.format.sampling self.now.format.depth).samples * first)
            self.now.samples)) }
    {
        let (made, rest) = rooms.split_at_mut(self.format.pgroup().samples * count);
        self.make(first, count, rest, made);
        pack(&self.format, made, octets);
    }

    /// The same in room of its own, which is a short one where that does.
    fn write_part(&self, first: usize, count: usize, octets: &mut [u8])
        requires inside { first + count ≤ group_count self.now.format }
        requires few { (pixel_group self.now.format.sampling self.now.format.depth).samples * count
            ≤ 768 }
        requires room { length octets.old
            ≡ (pixel_group self.now.format.sampling self.now.format.depth).octets * count }
        ensures { Spells (bits_of self.now.format.depth) octets.new
            (take ((pixel_group self.now.format.sampling self.now.format.depth).samples * count)
            (drop ((pixel_group self.now.format.sampling self.now.format.depth).samples * first)
            self.now.samples)) }
    {
        if self.format.pgroup().samples * count <= SHORT_PART {
            let mut rooms = [0; SHORT_ROOM];
            self.write_part_in(first, count, &mut rooms, octets);
        } else {
            let mut rooms = [0; ROOM];
            self.write_part_in(first, count, &mut rooms, octets);
        }
    }

    /// The same of any number of pgroups, part after part.
    fn write_groups(&self, first: usize, count: usize, octets: &mut [u8])
        requires inside { first + count ≤ group_count self.now.format }
        requires room { length octets.old
            ≡ (pixel_group self.now.format.sampling self.now.format.depth).octets * count }
        ensures { octets.new ≡ octets_in (bits_of self.now.format.depth)
            (take ((pixel_group self.now.format.sampling self.now.format.depth).samples * count)
            (drop ((pixel_group self.now.format.sampling self.now.format.depth).samples * first)
            self.now.samples)) }
    {
        let group = self.format.pgroup();
        let size = group.octets;
        let most = PART / group.samples;
        let mut done = 0;
        while done < count {
            let end = done + most.min(count - done);
            self.write_part(
                first + done,
                end - done,
                &mut octets[size * done..size * end],
            );
            done = end;
        }
        are_octets(octets);
    }
}

impl<'a, A: Allocator> Raster for MadePicture<'a, A> {
    ghost values = { λ p. p };

    fn format(&self) -> Format {
        self.format
    }

    fn write_run(&self, run: PacketRun, buf: &mut [u8], at: usize) -> usize {
        let first = (run.row * self.format.row_groups() + run.first) as usize;
        let count = run.groups as usize;
        let end = at + self.format.pgroup().octets * count;
        self.write_groups(first, count, &mut buf[at..end]);
        end
    }
}

/// The key of two inputs by a third, where all have the format.
fn keyed<'a, A: Allocator>(
    a: &JobInput<'a, A>,
    b: &JobInput<'a, A>,
    by: &JobInput<'a, A>,
    format: Format,
) -> Option<MadePicture<'a, A>>
    requires bases { HasBase a.now × HasBase b.now × HasBase by.now }
    requires format { format ≡ a.now.frame.now.format }
    ensures made { IfSome result (λ p.
        IsJobPicture p Key (settled a.now ∷ settled b.now ∷ settled by.now ∷ [])) }
    ensures whole { IfSome result (λ p. IsPicture p) }
    ensures format { IfSome result (λ p. p.format ≡ format) }
{
    if !format.same(&b.frame.format()) || !format.same(&by.frame.format()) {
        return None;
    }
    a.frame.settled_facts(a.base);
    b.frame.settled_facts(b.base);
    by.frame.settled_facts(by.base);
    Some(MadePicture {
        format,
        making: Making::Keyed(Source::new(a), Source::new(b), Source::new(by)),
    })
}

/// Y, Cb and Cr of an input of R, G and B.
fn matrixed<'a, A: Allocator>(rgb: &JobInput<'a, A>, format: Format) -> Option<MadePicture<'a, A>>
    requires base { HasBase rgb.now }
    requires format { IsResampled format rgb.now.frame.now.format Ycc444 }
    ensures made { IfSome result (λ p. IsJobPicture p ToYcc444 (settled rgb.now ∷ [])) }
    ensures whole { IfSome result (λ p. IsPicture p) }
    ensures format { IfSome result (λ p. p.format ≡ format) }
{
    let Sampling::Rgb = rgb.frame.format().sampling() else {
        return None;
    };
    rgb.frame.settled_facts(rgb.base);
    Some(MadePicture {
        format,
        making: Making::Matrixed(Source::new(rgb)),
    })
}

/// Makes keyed samples. The lumas of the third input stand in `out` before they are mixed over.
fn make_keyed<A: Allocator>(
    a: &Source<'_, A>,
    b: &Source<'_, A>,
    by: &Source<'_, A>,
    first: usize,
    count: usize,
    rooms: &mut [u16],
    out: &mut [u16],
)
    requires inputs { AreMadeOf a.now.input.frame.now.format a.now.input b.now.input by.now.input }
    requires inside { first + count ≤ group_count a.now.input.frame.now.format }
    requires few { length out.old ≤ 768 }
    requires rooms { 3 * length out.old ≤ length rooms.old }
    requires room { length out.old
        ≡ (pixel_group a.now.input.frame.now.format.sampling
        a.now.input.frame.now.format.depth).samples * count }
    ensures long { length out.new ≡ length out.old }
    ensures each { EachIndex out.new (λ k. slice_index out.new k
        ≡ keyed_number a.now.input b.now.input by.now.input
        ((pixel_group a.now.input.frame.now.format.sampling
        a.now.input.frame.now.format.depth).samples * first + k)) }
{
    let format = a.input.frame.format();
    let scale = scale_of(format.depth());
    let long = out.len();
    let (from, rest) = rooms.split_at_mut(long);
    let (to, rest) = rest.split_at_mut(long);
    let keys = &mut rest[..long];
    a.settle(first, count, from);
    b.settle(first, count, to);
    by.settle(first, count, out);
    row_keys(format.sampling(), format.sampling(), scale, out, keys);
    lane_kernels::key_mix(from, to, keys, 219 * scale, out);
}

/// Makes samples of Y, Cb and Cr.
fn make_matrixed<A: Allocator>(
    rgb: &Source<'_, A>,
    first: usize,
    count: usize,
    rooms: &mut [u16],
    out: &mut [u16],
)
    requires base { HasBase rgb.now.input }
    requires rgb { rgb.now.input.frame.now.format.sampling ≡ Rgb }
    requires picture { IsPicture (settled rgb.now.input) }
    requires inside { first + count ≤ group_count rgb.now.input.frame.now.format }
    requires rooms { 3 * length out.old ≤ length rooms.old }
    requires room { length out.old
        ≡ (pixel_group rgb.now.input.frame.now.format.sampling
        rgb.now.input.frame.now.format.depth).samples * count }
    ensures long { length out.new ≡ length out.old }
    ensures each { EachIndex out.new (λ k. slice_index out.new k
        ≡ matrixed_number rgb.now.input
        ((pixel_group rgb.now.input.frame.now.format.sampling
        rgb.now.input.frame.now.format.depth).samples * first + k)) }
{
    let pixels = &mut rooms[..out.len()];
    rgb.settle(first, count, pixels);
    lane_kernels::ycc709(pixels, rgb.input.frame.format().depth().bits(), out);
}
