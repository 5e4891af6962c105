//! What the lines of a script are followed with.
ghost use Rattle.std.specs.Prelude.{◌≡◌, ◌≢◌, ◌↔◌, ◌⊎◌, ◌∷◌, [], ℕ, IfErr, IfOk, IfSome};
ghost use Rattle.std.specs.Prelude.{IsErr, IsErrOf, None, Ok, OnOk, Some};
ghost use Rattle.std.proofs.Props.{props};
ghost use Rattle.path_receiver.specs.Answers.{refusals_after, taken_at};
ghost use Rattle.path_receiver.specs.Frames.{cell_in, frames_of, joined_frames};
ghost use Rattle.path_receiver.specs.Numbers.{IsCount};
ghost use Rattle.st_format.specs.Member.{IsMember};
ghost use Rattle.st_format.specs.Raster.{Raster};
ghost use Rattle.run_outcome.specs.Fault.{Accounts};
ghost use Rattle.run_outcome.specs.LowerFaults.{of_line, of_script};
ghost use Rattle.run_outcome.specs.declared.script_line.Form.TheVariants as form;
ghost use Rattle.run_outcome.specs.declared.script_line.LineFault.TheVariants as fault;
ghost use Rattle.run_outcome.specs.declared.script_line.Form.{Form};
ghost use Rattle.script_engines.specs.Session.{IsSamplePlace, IsSlide};
ghost use Rattle.script_engines.specs.Session.{cell_answer, datagram_answer};
ghost use Rattle.script_engines.specs.Session.{no_numbers, numbers_after, position_of, with_number};

use crate::line::SamplePlace;
use frame_assembly::Frame;
use path_receiver::{Receiver, SeqMap, SeqMapFault, SlideFault, Taken};
use run_outcome::{Fault, Form, Line, LineFault};
use st_format::{Cell, Path};
use std::alloc::{AllocError, Allocator};

/// A receiver, and what stands beside it while the lines of a script are followed.
#[derive(Drop)]
pub(crate) struct Session<A: Allocator> {
    pub receiver: Receiver<A>,
    /// The frame that a slide exchanges for the one that leaves: made at the first slide.
    spare: Option<Frame<A>>,
    /// The numbers of the datagrams that were kept since the line `numbers`; none before one.
    pub numbers: Option<SeqMap<A>>,
    ghost fits: { IfSome spare (λ r. r.format ≡ receiver.opening.format) } by { Prim.hlevel props },
}

impl<A: Allocator> Session<A> {
    /// A receiver, with no spare frame and no numbers yet.
    pub fn new(receiver: Receiver<A>) -> Session<A>
        ensures receiver { result.receiver ≡ receiver }
        ensures numbers { result.numbers ≡ None }
    {
        Session {
            receiver,
            spare: None,
            numbers: None,
        }
    }

    /// Takes a datagram, and notes its number where it is kept.
    pub fn take(&mut self, path: Path, octets: &[u8]) -> Line
        ensures answer { result ≡ datagram_answer (taken_at self.old.receiver.opening octets.now) }
        ensures opening { self.new.receiver.opening ≡ self.old.receiver.opening }
        ensures frames { self.new.receiver.frames ≡ joined_frames self.old.receiver.frames
            (frames_of self.old.receiver.opening (octets.now ∷ [])) }
        ensures refusals { self.new.receiver.refusals ≡ refusals_after path
            (taken_at self.old.receiver.opening octets.now) self.old.receiver.refusals }
        ensures numbers { self.new.numbers ≡ numbers_after
            (taken_at self.old.receiver.opening octets.now) self.old.numbers }
    {
        match self.receiver.take(path, octets) {
            Ok(Taken::Kept(number)) => {
                note(&mut self.numbers, number);
                Line::Kept(number)
            }
            Ok(Taken::Outside) => Line::Outside,
            Err(refusal) => Line::Refused(refusal),
        }
    }

    /// Begins to note the numbers of the datagrams that are kept, which a script may do once:
    /// `line` is at fault where it has done so before. Then a count may be refused, and last memory
    /// may be wanted.
    pub fn open_numbers(
        &mut self,
        alloc: A,
        line: usize,
        first: u32,
        count: u32,
    ) -> Result<(), Fault>
        ensures twice { IsErrOf result (of_script line form.Numbers)
            ↔ (self.old.numbers ≢ None) }
        ensures line { (number : ℕ) (wanted : Form) → IsErrOf result (of_script number wanted)
            → (number ≡ line) × (wanted ≡ form.Numbers) }
        ensures count { IsErrOf result (of_line line (fault.Numbers SeqMapFault.BadCount))
            ↔ ((self.old.numbers ≡ None) × (IsCount count → ⊥)) }
        ensures failures { Accounts result [] }
        ensures why { IfErr result (λ f. (f ≡ Fault.Memory) ⊎ ((f ≡ of_script line form.Numbers)
            ⊎ (f ≡ of_line line (fault.Numbers SeqMapFault.BadCount)))) }
        ensures size { OnOk result (IsCount count) }
        ensures opened { OnOk result (self.new.numbers ≡ Some (no_numbers first count)) }
        ensures receiver { self.new.receiver ≡ self.old.receiver }
    {
        if self.numbers.is_some() {
            return Err(Form::Numbers.refused_at(line));
        }
        match SeqMap::open(alloc, first, count) {
            Ok(numbers) => self.numbers = Some(numbers),
            Err(fault) => return Err(LineFault::Numbers(fault).refused_at(line)),
        }
        Ok(())
    }

    /// What is known of a sample; `Nowhere` where the window or the format hasn't its place.
    pub fn cell(&self, place: SamplePlace) -> Line
        ensures there { IsSamplePlace self.now.receiver place.timestamp (position_of place)
            → result ≡ cell_answer
            (cell_in self.now.receiver place.timestamp (position_of place)) }
        ensures nowhere { (IsSamplePlace self.now.receiver place.timestamp (position_of place) → ⊥)
            → result ≡ Line.Nowhere }
    {
        let Some(frame) = self.receiver.frame(place.timestamp) else {
            return Line::Nowhere;
        };
        let Ok(component) = u8::try_from(place.component) else {
            return Line::Nowhere;
        };
        let format = self.receiver.format();
        if !format.has_position(place.row, place.column, component) {
            return Line::Nowhere;
        }
        match frame.cell(place.row, place.column, component) {
            Cell::Missing => Line::Missing,
            Cell::Value(value) => Line::Value(value),
            Cell::Contested => Line::Contested,
        }
    }
}

impl<A: Allocator + Copy> Session<A> {
    /// Moves the window on to a timestamp, and tells of the frame that leaves. Frames swap places:
    /// the first slide makes the one that comes in, and each later one has that of the one before.
    ///
    /// `AllocError` comes only where the allocator refused the memory for the first slide's frame,
    /// and nothing has changed then.
    pub fn slide(&mut self, alloc: A, next: u32) -> Result<Line, AllocError>
        ensures refused { IsMember next self.old.receiver.opening.window
            → (result ≡ Ok (Line.NotSlid SlideFault.InWindow))
            × (self.new.receiver ≡ self.old.receiver) }
        ensures slid { (IsMember next self.old.receiver.opening.window → ⊥)
            → IfOk result (λ answer. (spare : Raster) × (self.new.spare ≡ Some spare)
            × IsSlide self.old.receiver next self.new.receiver spare answer) }
        ensures memory { IfErr result (λ _. (self.old.spare ≡ None)
            × (self.new.spare ≡ None) × (self.new.receiver ≡ self.old.receiver)) }
        ensures numbers { self.new.numbers ≡ self.old.numbers }
    {
        if self.receiver.frame(next).is_some() {
            return Ok(Line::NotSlid(SlideFault::InWindow));
        }
        let mut spare = self.spare_frame(alloc)?;
        let slid = self.receiver.slide(next, &mut spare);
        let counts = spare.counts();
        self.spare = Some(spare);
        Ok(match slid {
            Ok(first) => Line::Out(first, counts),
            Err(fault) => Line::NotSlid(fault),
        })
    }

    /// The frame that the slide before brought out, so that only the first one takes memory.
    fn spare_frame(&mut self, alloc: A) -> Result<Frame<A>, AllocError>
        ensures format { IfOk result
            (λ frame. frame.format ≡ self.old.receiver.opening.format) }
        ensures memory { IsErr result → self.old.spare ≡ None }
        ensures spare { self.new.spare ≡ None }
        ensures receiver { self.new.receiver ≡ self.old.receiver }
        ensures numbers { self.new.numbers ≡ self.old.numbers }
    {
        match self.spare.take() {
            Some(frame) => Ok(frame),
            None => Frame::new(alloc, self.receiver.format()),
        }
    }
}

/// Notes the number of a datagram that was kept, once a line `numbers` was followed.
fn note<A: Allocator>(numbers: &mut Option<SeqMap<A>>, number: u32)
    ensures { numbers.new ≡ with_number number numbers.old }
{
    if let Some(numbers) = numbers {
        numbers.note(number);
    }
}
