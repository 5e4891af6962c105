//! Files read side by side, as one source of datagrams.
ghost use Rattle.std.specs.Prelude.{◌≡◌, ◌≤◌, ◌↔◌, ◌++◌, None, Some, IfErr, IfOk, OnErr, OnOk};
ghost use Rattle.std.specs.Prelude.{MatchResult, [], length};
ghost use Rattle.std.specs.List.{AllByRecursion};
ghost use Rattle.recording_engines.specs.Files.{HasKnownOctets, IsReadByFlows};
ghost use Rattle.recording_reader.specs.FileReader.{octets_at_hand};
ghost use Rattle.side_by_side.specs.Side.{AccountsFor};
ghost use Rattle.side_by_side.specs.Sides.{AllOver, AllUnfailed, CountsPlace, FailsByReading};
ghost use Rattle.side_by_side.specs.Sides.{HasGivenAll, IsDatagramOrEnd, IsFaultOfFiles};
ghost use Rattle.side_by_side.specs.Sides.{IsSideBySide, IsUnreadSide, LendsSides, StopsSides};
ghost use Rattle.side_by_side.specs.Sides.{TellsSides, begun_each, failures_each, hand_at};
ghost use Rattle.side_by_side.specs.Sides.{last_fault_of};
ghost use Rattle.st_format.specs.Device.{CountsFaults};
ghost use Rattle.st_format.specs.Turns.{CountsTurn, IsEnd, IsWithin, TakesTurn, arrived};

use crate::giving::{give_next, octets_of, tell_at, told};
use crate::side::Side;
use crate::steering::Steering;
use recording_engines::know;
use recording_reader::ReadingFault;
use st_format::{ByteSource, DatagramSource, SourceFault, Turn};
use std::alloc::Allocator;
use std::marker::Model;

/// Gives the datagrams of several files as one source: always that of the file whose next datagram
/// has the oldest timestamp (RFC 1982, 3.2), of those of one timestamp the first file's. A datagram
/// that steers nothing, as one of RTCP, goes at once. The timestamps are those of one stream.
///
/// Each file keeps its order. A file is read on only when its datagram is wanted, one ahead, the
/// first file first. At the first fault of a file it ends: the datagrams that were given before it
/// stay, those of the others are not read on, and each later call answers that fault. A file that
/// isn't opened gives none.
///
/// [`SideBySide::advance`] goes on to the next datagram and copies nothing: its octets are borrowed
/// by [`SideBySide::octets_at`] where they lie, until the next call. [`DatagramSource::next`]
/// copies them into a buffer.
///
/// Of more than two files whose next timestamps lie over more than half of the round no one is
/// the oldest: it is then asked from the last file to the first which of two is older.
#[derive(Drop)]
pub struct SideBySide<A: Allocator, S: ByteSource> {
    steering: Steering,
    sides: Vec<Side<A, S>, A>,
    delivered: u64,
    failures: u64,
    fault: Option<ReadingFault>,
}

impl<A: Allocator, S: ByteSource> Model for SideBySide<A, S> {
    ghost use Rattle.side_by_side.specs.Sides.{IsSideBySide, Sides, given_of};

    // Which datagrams it gave is told by how far the files are: none is noted.
    ghost Value = { Sides A S };

    ghost view = { λ v. record {
      steering = v.steering;
      sides = v.sides.items;
      came = given_of v.steering v.sides.items;
      delivered = v.delivered;
      failures = v.failures;
      fault = v.fault;
    } };

    ghost invariant = { λ v. IsSideBySide (record {
      steering = v.steering;
      sides = v.sides.items;
      came = given_of v.steering v.sides.items;
      delivered = v.delivered;
      failures = v.failures;
      fault = v.fault;
    }) };
}

impl<A: Allocator, S: ByteSource> SideBySide<A, S> {
    /// Over files of which nothing was read behind what stands before their records.
    pub fn new(steering: Steering, sides: Vec<Side<A, S>, A>) -> SideBySide<A, S>
        requires { AllByRecursion IsUnreadSide sides.items }
        ensures { result ≡ record {
          steering = steering;
          sides = sides.items;
          came = [];
          delivered = 0;
          failures = 0;
          fault = None;
        } }
    {
        SideBySide {
            steering,
            sides,
            delivered: 0,
            failures: 0,
            fault: None,
        }
    }

    /// What is so of all of them: what was given are the records of the files, always that of the
    /// file that goes first. A caller's proof learns it from here; nothing is done.
    #[inline(always)]
    pub fn facts(&self)
        ensures { IsSideBySide self.now }
    {
        let _failures = &self.failures;
    }

    /// What is known of the octets of each file, by where its reader stands; that a recording is
    /// read by flows; and where each is at its end, that all of its records were given. A caller's
    /// proof learns it from here; nothing is done.
    #[doc(hidden)]
    #[inline(always)]
    pub fn history(&self)
        ensures known { AllByRecursion (λ s. HasKnownOctets S.gave S.ended s.file) self.now.sides }
        ensures by_flows { AllByRecursion (λ s. IsReadByFlows s.file) self.now.sides }
        ensures all { AllOver self.now.sides → HasGivenAll S.gave S.ended self.now }
    {
        know_all(&self.sides);
    }

    /// The fault of a file at which it stays, if it came to one: the first, in the files' order.
    pub fn fault(&self) -> Option<ReadingFault>
        ensures fault { result ≡ self.now.fault }
        ensures stopped { IsFaultOfFiles result self.now.sides }
    {
        self.fault
    }

    /// The files, each as far as it was read.
    pub fn sides(&self) -> &[Side<A, S>]
        ensures { result.now ≡ self.now.sides }
    {
        self.sides.as_slice()
    }

    /// Goes on to the next datagram, that of the file that goes first, and answers the place of
    /// that file among [`SideBySide::sides`]; or none at the end, where no file has one. Until the
    /// next call [`SideBySide::octets_at`] lends the datagram's octets.
    ///
    /// # Errors
    ///
    /// The fault of the first file that has one before its next datagram: it ends all of them
    /// there, and each later call answers it.
    pub fn advance(&mut self) -> Result<Option<usize>, ReadingFault>
        ensures lent { IfOk result (λ at. LendsSides at self.old self.new) }
        ensures fault { IfErr result (λ f. StopsSides f self.old self.new) }
        ensures steering { self.new.steering ≡ self.old.steering }
        ensures begun { begun_each self.new.sides ≡ begun_each self.old.sides }
        ensures device { AllUnfailed self.old.sides → AccountsFor result
            (failures_each S.failures self.old.sides) (failures_each S.failures self.new.sides) }
    {
        match give_next(self.steering, self.sides.as_mut_slice()) {
            Ok(at) => {
                self.delivered = delivered_with(self.delivered, at);
                Ok(at)
            }
            Err(fault) => {
                self.failures = self.failures.saturating_add(1);
                self.fault = Some(fault);
                Err(fault)
            }
        }
    }

    /// The octets of the datagram that the file of a place has at hand: of the place that
    /// [`SideBySide::advance`] answered last, those of the datagram that was given last. None where
    /// that file has none, or there is no such file.
    pub fn octets_at(&self, place: usize) -> &[u8]
        ensures octets { result.now ≡ octets_at_hand (hand_at self.now.sides place) }
        ensures few { length result.now ≤ 65535 }
    {
        octets_of(self.sides(), place)
    }

    /// Tells the next turn, and where a file is at fault this fault, at which it then stays.
    fn take_next(&mut self, buf: &mut [u8]) -> Result<Turn, ReadingFault>
        requires { 65535 ≤ length buf.old }
        ensures room { length buf.new ≡ length buf.old }
        ensures steering { self.new.steering ≡ self.old.steering }
        ensures begun { begun_each self.new.sides ≡ begun_each self.old.sides }
        ensures told { IfOk result (λ t. TellsSides t buf.new self.old self.new) }
        ensures fault { IfErr result (λ f. StopsSides f self.old self.new) }
        ensures device { AllUnfailed self.old.sides → AccountsFor result
            (failures_each S.failures self.old.sides) (failures_each S.failures self.new.sides) }
    {
        match self.advance() {
            Ok(Some(place)) => Ok(tell_at(self.sides(), place, buf)),
            Ok(None) => Ok(Turn::End),
            Err(fault) => Err(fault),
        }
    }

    /// Gives the files back, as they are.
    pub fn into_sides(self) -> Vec<Side<A, S>, A>
        ensures sides { result.items ≡ self.sides }
        ensures facts { IsSideBySide self }
    {
        self.sides
    }
}

/// What is known of the octets of files.
fn know_all<A: Allocator, S: ByteSource>(sides: &[Side<A, S>])
    ensures known { AllByRecursion (λ s. HasKnownOctets S.gave S.ended s.file) sides.now }
    ensures by_flows { AllByRecursion (λ s. IsReadByFlows s.file) sides.now }
{
    let Some((first, rest)) = sides.split_first() else {
        return;
    };
    know(&first.file);
    know_all(rest);
}

impl<A: Allocator, S: ByteSource> DatagramSource for SideBySide<A, S> {
    ghost turns = { λ _. None };

    ghost came = { λ s. s.came };

    ghost ended = { λ s. AllOver s.sides };

    ghost delivered = { λ s. s.delivered };

    ghost failures = { λ s. s.failures };

    ghost last_fault = { λ s. last_fault_of s.fault };

    /// Tells the datagram of the file that goes first, or the end where none has one.
    fn next(&mut self, buf: &mut [u8]) -> Result<Turn, SourceFault>
        requires { 65535 ≤ length buf.old }
        ensures room { length buf.new ≡ length buf.old }
        ensures within { IfOk result (λ t. IsWithin t) }
        ensures tells { IfOk result IsDatagramOrEnd }
        ensures turn { IfOk result (λ t. TakesTurn None None t buf.new) }
        ensures delivered { MatchResult result
            (λ t. CountsTurn t self.old.delivered self.new.delivered)
            (λ _. self.new.delivered ≡ self.old.delivered) }
        ensures counted { CountsFaults self.old.failures self.new.failures result }
        ensures last { IfErr result (λ e. last_fault_of self.new.fault ≡ Some e) }
        ensures blameless { OnOk result
            (last_fault_of self.new.fault ≡ last_fault_of self.old.fault) }
        ensures came { IfOk result (λ t. self.new.came ≡ self.old.came ++ arrived t buf.new) }
        ensures ended { IfOk result (λ t. AllOver self.new.sides ↔ IsEnd t) }
        ensures kept { OnErr result (self.new.came ≡ self.old.came) }

        // What stays, and whose failures they are: a fault of the device comes only where the
        // source of a file failed in this call.
        ensures steering { self.new.steering ≡ self.old.steering }
        ensures begun { begun_each self.new.sides ≡ begun_each self.old.sides }
        ensures unfailed { OnOk result (AllUnfailed self.new.sides) }
        ensures fault { IfErr result (λ e. FailsByReading S.failures e self.old self.new) }
        ensures device { OnOk result (AllUnfailed self.old.sides
            → failures_each S.failures self.new.sides ≡ failures_each S.failures self.old.sides) }
    {
        match self.take_next(buf) {
            Ok(turn) => Ok(turn),
            Err(fault) => Err(told(fault)),
        }
    }
}

/// How many datagrams were given, with one of a place more, where one is told.
fn delivered_with(delivered: u64, at: Option<usize>) -> u64
    ensures { CountsPlace at delivered result }
{
    match at {
        Some(_) => delivered.saturating_add(1),
        None => delivered,
    }
}
