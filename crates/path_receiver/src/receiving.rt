//! Taking what a source of datagrams gives.
ghost use Rattle.std.specs.Prelude.{◌≡◌, ◌≤◌, ℕ, List, [], Some, ◌++◌, fold, length, map, take};
ghost use Rattle.std.specs.Prelude.{IfErr, IfOk, MatchResult, OnOk, true};
ghost use Rattle.path_receiver.specs.Answers.{taken_at};
ghost use Rattle.path_receiver.specs.Frames.{Holds, IsReceiver};
ghost use Rattle.path_receiver.specs.Took.{ComesMore, CountsAll, HearsAll, Took, TookUpTo};
ghost use Rattle.path_receiver.specs.Took.{datagrams_since, delivered_in};
ghost use Rattle.st_format.specs.Device.{CountsFaults};
ghost use Rattle.st_format.specs.Member.{SameDatagrams};
ghost use Rattle.st_format.specs.Turns.{Due, datagrams_of};

use crate::observer::{Observer, Unobserved};
use crate::receiver::Receiver;
use st_format::{DatagramSource, SourceFault, Turn};
use std::alloc::Allocator;
use thiserror::Error;

/// What came of the turns that were taken.
#[derive(Clone, Copy, Debug, PartialEq, Eq)]
pub struct Received {
    /// How many of them were datagrams, refused ones and such outside the window among them.
    pub delivered: u64,
    /// Whether the last was the end of the source.
    pub ended: bool,
}

/// The source failed.
#[derive(Clone, Copy, Debug, PartialEq, Eq, Error)]
#[error("the source failed after {delivered} datagrams: {fault}")]
pub struct ReceiveFault {
    /// How many datagrams it had delivered in this call. They are taken.
    pub delivered: u64,
    /// What the source told of its failure.
    pub fault: SourceFault,
}

impl ReceiveFault {
    ghost use Rattle.path_receiver.specs.Answers.{receive_fault_name};

    /// Its bare name, as the texts of the program have it.
    pub fn name(self) -> &'static str
        ensures { result.now ≡ receive_fault_name }
    {
        "ReceiveFault"
    }
}

/// Gives a receiver the datagrams of a source: `limit` turns, or fewer where one is the end or a
/// fault.
///
/// A datagram that the receiver refuses, or that is outside its window, counts as delivered and
/// stops nothing. `buf` has room for any datagram: 65,535 octets. No memory is taken.
///
/// An `Err` is the source's one failure in this call. What it delivered before is taken. A source
/// says nothing then of its turns to come, so it is said which it gave before.
pub fn receive<S: DatagramSource, A: Allocator>(
    source: &mut S,
    receiver: &mut Receiver<A>,
    buf: &mut [u8],
    limit: u64,
) -> Result<Received, ReceiveFault>
    requires { 65535 ≤ length buf.old }

    // Which turns were taken, and what the receiver has of their datagrams.
    ensures took { MatchResult result
        (λ r. Took limit r (S.turns source.old) (S.turns source.new) receiver.old receiver.new)
        (λ e. TookUpTo limit e.delivered (S.turns source.old) receiver.old receiver.new) }

    // What came of the source are the datagrams among these turns.
    ensures came { MatchResult result
        (λ r. (t : Took limit r (S.turns source.old) (S.turns source.new) receiver.old
        receiver.new) × ComesMore (S.came source.old) (S.came source.new) t.due)
        (λ e. (t : TookUpTo limit e.delivered (S.turns source.old) receiver.old receiver.new)
        × ComesMore (S.came source.old) (S.came source.new) t.due) }

    // Where it held the Frames of some datagrams and the source tells its turns, it then holds
    // those of them and the first datagrams that were to come: as many as were delivered.
    ensures holds { (datagrams : List (List ℕ)) (due : List Due) →
        S.turns source.old ≡ Some due → Holds receiver.old datagrams →
        Holds receiver.new (datagrams ++ take (delivered_in result) (datagrams_of due)) }

    // So one that held the Frames of nothing then holds those of every list that has the same
    // datagrams as those delivered.
    ensures any_list { (datagrams : List (List ℕ)) (due : List Due) →
        S.turns source.old ≡ Some due → Holds receiver.old [] →
        SameDatagrams (take (delivered_in result) (datagrams_of due)) datagrams →
        Holds receiver.new datagrams }

    // Of every source: it then holds those of them and of what came.
    ensures holds_came { (datagrams : List (List ℕ)) → Holds receiver.old datagrams →
        Holds receiver.new
        (datagrams ++ datagrams_since (S.came source.old) (S.came source.new)) }
    ensures ended { IfOk result (λ r. r.ended ≡ true → S.ended source.new) }

    // What the source counts, and its fault.
    ensures few { delivered_in result ≤ limit }
    ensures delivered { CountsAll (delivered_in result)
        (S.delivered source.old) (S.delivered source.new) }
    ensures counted { CountsFaults (S.failures source.old) (S.failures source.new) result }
    ensures fault { IfErr result (λ e. S.last_fault source.new ≡ Some e.fault) }
    ensures blameless { OnOk result (S.last_fault source.new ≡ S.last_fault source.old) }

    // What stays.
    ensures opening { receiver.new.opening ≡ receiver.old.opening }
    ensures receiver { IsReceiver receiver.new }
    ensures room { length buf.new ≡ length buf.old }
    ensures before { S.before source.new ≡ S.before source.old }
    ensures names { S.names source.new ≡ S.names source.old }
{
    receive_each(source, receiver, buf, limit, &mut Unobserved)
}

/// Gives a receiver the datagrams of a source, as [`receive`] does, and tells an observer the
/// receiver's answer to each, in order.
pub fn receive_each<S: DatagramSource, A: Allocator, O: Observer>(
    source: &mut S,
    receiver: &mut Receiver<A>,
    buf: &mut [u8],
    limit: u64,
    observer: &mut O,
) -> Result<Received, ReceiveFault>
    requires { 65535 ≤ length buf.old }

    // Which turns were taken, and what the receiver has of their datagrams.
    ensures took { MatchResult result
        (λ r. Took limit r (S.turns source.old) (S.turns source.new) receiver.old receiver.new)
        (λ e. TookUpTo limit e.delivered (S.turns source.old) receiver.old receiver.new) }

    // The observer was told the answer to each of these datagrams, in order.
    ensures heard { MatchResult result
        (λ r. (t : Took limit r (S.turns source.old) (S.turns source.new) receiver.old
        receiver.new) × HearsAll O.after receiver.old.opening t.due observer.old observer.new)
        (λ e. (t : TookUpTo limit e.delivered (S.turns source.old) receiver.old receiver.new)
        × HearsAll O.after receiver.old.opening t.due observer.old observer.new) }
    // What came of the source are the datagrams among them.
    ensures came { MatchResult result
        (λ r. (t : Took limit r (S.turns source.old) (S.turns source.new) receiver.old
        receiver.new) × HearsAll O.after receiver.old.opening t.due observer.old observer.new
        × ComesMore (S.came source.old) (S.came source.new) t.due)
        (λ e. (t : TookUpTo limit e.delivered (S.turns source.old) receiver.old receiver.new)
        × HearsAll O.after receiver.old.opening t.due observer.old observer.new
        × ComesMore (S.came source.old) (S.came source.new) t.due) }
    ensures answers { (due : List Due) → S.turns source.old ≡ Some due →
        observer.new ≡ fold O.after observer.old
        (map (taken_at receiver.old.opening) (take (delivered_in result) (datagrams_of due))) }

    // Where it held the Frames of some datagrams and the source tells its turns, it then holds
    // those of them and the first datagrams that were to come: as many as were delivered.
    ensures holds { (datagrams : List (List ℕ)) (due : List Due) →
        S.turns source.old ≡ Some due → Holds receiver.old datagrams →
        Holds receiver.new (datagrams ++ take (delivered_in result) (datagrams_of due)) }

    // So one that held the Frames of nothing then holds those of every list that has the same
    // datagrams as those delivered.
    ensures any_list { (datagrams : List (List ℕ)) (due : List Due) →
        S.turns source.old ≡ Some due → Holds receiver.old [] →
        SameDatagrams (take (delivered_in result) (datagrams_of due)) datagrams →
        Holds receiver.new datagrams }

    // Of every source: it then holds those of them and of what came.
    ensures holds_came { (datagrams : List (List ℕ)) → Holds receiver.old datagrams →
        Holds receiver.new
        (datagrams ++ datagrams_since (S.came source.old) (S.came source.new)) }
    ensures ended { IfOk result (λ r. r.ended ≡ true → S.ended source.new) }

    // What the source counts, and its fault.
    ensures few { delivered_in result ≤ limit }
    ensures delivered { CountsAll (delivered_in result)
        (S.delivered source.old) (S.delivered source.new) }
    ensures counted { CountsFaults (S.failures source.old) (S.failures source.new) result }
    ensures fault { IfErr result (λ e. S.last_fault source.new ≡ Some e.fault) }
    ensures blameless { OnOk result (S.last_fault source.new ≡ S.last_fault source.old) }

    // What stays.
    ensures opening { receiver.new.opening ≡ receiver.old.opening }
    ensures receiver { IsReceiver receiver.new }
    ensures room { length buf.new ≡ length buf.old }
    ensures before { S.before source.new ≡ S.before source.old }
    ensures names { S.names source.new ≡ S.names source.old }
{
    // It is one where not one turn is taken too.
    receiver.facts();
    take_turns(source, receiver, buf, limit, observer)
}

/// Takes so many turns, or fewer where one is the end or a fault.
fn take_turns<S: DatagramSource, A: Allocator, O: Observer>(
    source: &mut S,
    receiver: &mut Receiver<A>,
    buf: &mut [u8],
    limit: u64,
    observer: &mut O,
) -> Result<Received, ReceiveFault>
    requires room { 65535 ≤ length buf.old }
    requires receiver { IsReceiver receiver.old }
    ensures few { delivered_in result ≤ limit }
    ensures came { MatchResult result
        (λ r. (t : Took limit r (S.turns source.old) (S.turns source.new) receiver.old
        receiver.new) × HearsAll O.after receiver.old.opening t.due observer.old observer.new
        × ComesMore (S.came source.old) (S.came source.new) t.due)
        (λ e. (t : TookUpTo limit e.delivered (S.turns source.old) receiver.old receiver.new)
        × HearsAll O.after receiver.old.opening t.due observer.old observer.new
        × ComesMore (S.came source.old) (S.came source.new) t.due) }
    ensures ended { IfOk result (λ r. r.ended ≡ true → S.ended source.new) }
    ensures delivered { CountsAll (delivered_in result)
        (S.delivered source.old) (S.delivered source.new) }
    ensures counted { CountsFaults (S.failures source.old) (S.failures source.new) result }
    ensures fault { IfErr result (λ e. S.last_fault source.new ≡ Some e.fault) }
    ensures blameless { OnOk result (S.last_fault source.new ≡ S.last_fault source.old) }
    ensures receiver { IsReceiver receiver.new }
    ensures room { length buf.new ≡ length buf.old }
    ensures before { S.before source.new ≡ S.before source.old }
    ensures names { S.names source.new ≡ S.names source.old }
{
    let mut delivered = 0;
    for _ in 0..limit {
        match source.next(buf) {
            Ok(Turn::Datagram(path, count)) => {
                observer.note(receiver.take(path, &buf[..count]));
                delivered += 1;
                continue;
            }
            Ok(Turn::Quiet) => continue,
            Ok(Turn::End) => {
                return Ok(Received {
                    delivered,
                    ended: true,
                });
            }
            Err(fault) => return Err(ReceiveFault { delivered, fault }),
        }
    }
    Ok(Received {
        delivered,
        ended: false,
    })
}
