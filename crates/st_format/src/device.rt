//! What devices give and take, and loops over any of them.
//!
//! A device says what it does by ghost members, which only contracts see. Some speak of what is to
//! come and of what is there: the octets that it has still to give, those that it holds, the
//! datagrams that it has, the turns that are to come. A device of this machine, as a file or a
//! socket, can't say these, so its list is `None`. Others speak of what passed, and hold of every
//! device: the octets and datagrams that its calls gave or took so far, whether it told its end,
//! and how often it has failed.
//!
//! A device that is lent, `&mut S`, is a device too: what it says is what the lender's says.
//!
//! A count of failures or of datagrams stays at 2^64 - 1 once it is there.
ghost use Rattle.std.specs.Prelude.{◌≡◌, ◌≤◌, ◌<◌, ◌↔◌, ℕ, List, [], ◌∷◌, ◌++◌, Option, length};
ghost use Rattle.std.specs.Prelude.{take, IfOk, OnOk, IfErr, OnErr, MatchResult, ⊤};
ghost use Rattle.std.specs.Borrow.{GName};
ghost use Rattle.std.specs.Io.KnownBytes.{Consumes, Appends, Keeps, IsAtEnd};
ghost use Rattle.st_format.specs.Device.{CountsFaults, ConsumesPrefix, AppendsPrefix, StaysUntold};
ghost use Rattle.st_format.specs.Device.{TakesOne, KeepsAll, TellsOctets, GivesPart, GrowsPart};
ghost use Rattle.st_format.specs.Device.{BeginsWith};
ghost use Rattle.std.specs.Prelude.{IsTrue, IsFalse};

use crate::Path;
use thiserror::Error;

/// How many octets a datagram has at most, and the text of a capture: a length of 16 bits (UDP: RFC
/// 768).
pub const MOST_DATAGRAM: usize = 65_535;

/// A source or a sink of octets failed. Why is the device's own matter.
#[derive(Clone, Copy, Debug, PartialEq, Eq, Error)]
#[error("a source or a sink of octets failed")]
pub struct DeviceFault;

impl DeviceFault {
    ghost use Rattle.st_format.specs.Faults.{device_fault_name};

    /// Its bare name, as the texts of the program have it.
    pub fn name(self) -> &'static str
        ensures { result.now ≡ device_fault_name }
    {
        "DeviceFault"
    }
}

/// A sink of datagrams failed, and did not take the datagram.
#[derive(Clone, Copy, Debug, PartialEq, Eq, Error)]
#[error("a sink of datagrams failed, and did not take the datagram")]
pub struct SinkFault;

impl SinkFault {
    ghost use Rattle.st_format.specs.Faults.{sink_fault_name};

    /// Its bare name, as the texts of the program have it.
    pub fn name(self) -> &'static str
        ensures { result.now ≡ sink_fault_name }
    {
        "SinkFault"
    }
}

/// What failed at a call of a source of datagrams: its device, or what that carries.
#[derive(Clone, Copy, Debug, PartialEq, Eq, Error)]
pub enum SourceFault {
    /// The device failed. Why is its own matter.
    #[error("the device failed")]
    Device,
    /// What the device carries is at fault, by the number that the source gives to faults of its
    /// content.
    #[error("what the device carries is at fault: number {0} of the source's faults")]
    Content(u8),
}

impl SourceFault {
    ghost use Rattle.st_format.specs.Faults.{source_fault_name};

    /// Its bare name, of a fault of content without the number.
    pub fn name(self) -> &'static str
        ensures { result.now ≡ source_fault_name self }
    {
        match self {
            SourceFault::Device => "Device",
            SourceFault::Content(_) => "Content",
        }
    }
}

/// What a source of datagrams answers to one call.
#[derive(Clone, Copy, Debug, PartialEq, Eq)]
pub enum Turn {
    /// A datagram came by a path, of so many octets: at most 65,535.
    Datagram(Path, usize),
    /// None came in this turn; one may come later.
    Quiet,
    /// None will come.
    End,
}

/// Gives octets, one piece after another, until its end.
///
/// To read as far as a buffer goes, call [`read_whole`].
pub trait ByteSource {
    /// The octets still to give, first one first; `None` where the device can't tell them.
    ghost to_give: { Self → Option (List ℕ) };

    /// All octets that its calls gave so far, first one first.
    ghost gave: { Self → List ℕ };

    /// Its last call at a buffer with room told the end. Before such a call, and after one at an
    /// empty buffer or one that failed, it is not said.
    ghost ended: { Self → Type 0 };

    /// How many of its calls failed so far.
    ghost failures: { Self → ℕ };

    /// The octets to come that it holds already, first one first. None where it doesn't say so.
    ghost at_hand: { Self → List ℕ } = { λ _. [] };

    /// The references by which it reaches what it reads from, which stay. None where it owns that.
    ghost names: { Self → List GName } = { λ _. [] };

    /// Puts octets at the front of `buf`, and answers how many: at most as many as `buf` has, and
    /// maybe fewer than there are. They are the first of those still to give, and are then given.
    /// What `buf` holds behind them is not said.
    ///
    /// 0 means the end, if `buf` is not empty: nothing is left to give. At an empty `buf` it means
    /// nothing.
    ///
    /// An `Err` is one failure more. It gives nothing: the octets still to give stay, and a later
    /// call may give them. What `buf` then holds is not said.
    ///
    /// What a source tells of its octets is numbers below 256. Just a call shows it: a law of the
    /// trait ranges over all views, also of values that there aren't.
    fn read(&mut self, buf: &mut [u8]) -> Result<usize, DeviceFault>
        ensures room { length buf.new ≡ length buf.old }
        ensures within { IfOk result (λ n. n ≤ length buf.new) }
        ensures given { IfOk result
            (λ n. Consumes (to_give self.old) (to_give self.new) (take n buf.new)) }
        ensures end { IfOk result (λ n. n ≡ 0 → 0 < length buf.old → IsAtEnd (to_give self.new)) }
        ensures fault { OnErr result (Keeps (to_give self.old) (to_give self.new)) }
        ensures octets { TellsOctets (to_give self.old) }
        ensures counted { CountsFaults (failures self.old) (failures self.new) result }
        ensures names { names self.new ≡ names self.old }
        ensures gave { IfOk result (λ n. gave self.new ≡ gave self.old ++ take n buf.new) }
        ensures ended { IfOk result (λ n. 0 < length buf.old → (ended self.new ↔ (n ≡ 0))) }
        ensures kept { OnErr result (gave self.new ≡ gave self.old) };

    /// Lends octets to come that it holds already: those at hand, or a first part of them. It asks
    /// for none, and gives none: a later call gives these first. Where a source doesn't say what it
    /// holds they are none, whatever is to come.
    fn peek(&self) -> &[u8]
        ensures held { result.now ≡ take (length result.now) (at_hand self.now) }
        ensures next { BeginsWith (to_give self.now) result.now }
    {
        &[]
    }

    /// Gives the first `count` of the octets at hand, as a call of [`ByteSource::read`] gives
    /// octets, but puts them nowhere, and answers whether it did: all of them or none. It asks for
    /// no octet, and never fails.
    ///
    /// A source that lends octets passes as many of them. One that doesn't say what it holds passes
    /// none, and stays as it is. So does this body, which is proved for every source.
    fn pass(&mut self, _count: usize) -> bool
        ensures within { IsTrue result → _count ≤ length (at_hand self.old) }
        ensures given { IsTrue result
            → Consumes (to_give self.old) (to_give self.new) (take _count (at_hand self.old)) }
        ensures gave { IsTrue result
            → gave self.new ≡ gave self.old ++ take _count (at_hand self.old) }
        ensures ended { IsTrue result
            → (ended self.new ↔ ((_count ≡ 0) × ended self.old)) }
        ensures kept { IsFalse result → to_give self.new ≡ to_give self.old }
        ensures none { IsFalse result → gave self.new ≡ gave self.old }
        ensures still { IsFalse result → (ended self.new ↔ ended self.old) }
        ensures failures { failures self.new ≡ failures self.old }
        ensures names { names self.new ≡ names self.old }
    {
        false
    }
}

/// Takes octets, one piece after another.
///
/// To write all of a slice, call [`write_whole`].
pub trait ByteSink {
    /// The octets that it holds, in the order in which it took them; `None` where the device can't
    /// tell them.
    ghost held: { Self → Option (List ℕ) };

    /// All octets that its calls took so far, first one first.
    ghost took: { Self → List ℕ };

    /// How many of its calls failed so far.
    ghost failures: { Self → ℕ };

    /// The references by which it reaches what it writes to, which stay. None where it owns that.
    ghost names: { Self → List GName } = { λ _. [] };

    /// Takes octets from the front of `octets`, and answers how many: maybe fewer than there are,
    /// but at least one if there is one. They come behind those that it holds.
    ///
    /// 0 means only that `octets` is empty: a sink that can take no more fails.
    ///
    /// An `Err` is one failure more. It takes nothing: the octets held stay.
    ///
    /// A sink that doesn't tell what it holds goes on telling nothing.
    fn write(&mut self, octets: &[u8]) -> Result<usize, DeviceFault>
        ensures within { IfOk result (λ n. n ≤ length octets.now) }
        ensures some { IfOk result (λ n. 0 < length octets.now → 0 < n) }
        ensures taken { IfOk result
            (λ n. Appends (held self.old) (held self.new) (take n octets.now)) }
        ensures fault { OnErr result (Keeps (held self.old) (held self.new)) }
        ensures untold { StaysUntold (held self.old) (held self.new) }
        ensures counted { CountsFaults (failures self.old) (failures self.new) result }
        ensures names { names self.new ≡ names self.old }
        ensures took { IfOk result (λ n. took self.new ≡ took self.old ++ take n octets.now) }
        ensures kept { OnErr result (took self.new ≡ took self.old) };
}

/// Takes datagrams, each whole or not at all.
pub trait DatagramSink {
    /// The datagrams that it took, in order; `None` where the device can't tell them.
    ghost taken: { Self → Option (List (List ℕ)) };

    /// All datagrams that its calls took so far, in order.
    ghost took: { Self → List (List ℕ) };

    /// How many of its calls failed so far.
    ghost failures: { Self → ℕ };

    /// What becomes of the sink by a call that takes a datagram. Where a sink of octets lies below
    /// it, this says what that is then written.
    ghost takes: { Self → List ℕ → Self → Type 0 } = { λ _ _ _. ⊤ };

    /// What becomes of it by a call that fails, at a datagram.
    ghost fails: { Self → List ℕ → Self → Type 0 } = { λ _ _ _. ⊤ };

    /// Takes one datagram, of at most 65,535 octets; it comes behind those taken before. It may be
    /// empty.
    ///
    /// An `Err` is one failure more. It takes nothing: the datagrams taken stay.
    fn put(&mut self, octets: &[u8]) -> Result<(), SinkFault>
        requires { length octets.now ≤ 65535 }
        ensures taken { OnOk result (TakesOne (taken self.old) (taken self.new) octets.now) }
        ensures fault { OnErr result (KeepsAll (taken self.old) (taken self.new)) }
        ensures counted { CountsFaults (failures self.old) (failures self.new) result }
        ensures takes { OnOk result (takes self.old octets.now self.new) }
        ensures fails { OnErr result (fails self.old octets.now self.new) }
        ensures took { OnOk result (took self.new ≡ took self.old ++ octets.now ∷ []) }
        ensures kept { OnErr result (took self.new ≡ took self.old) };
}

/// Gives datagrams that come by two paths, one turn after another, until its end.
pub trait DatagramSource {
    ghost use Rattle.std.specs.Prelude.{Some};
    ghost use Rattle.st_format.specs.Device.{Told, told_nothing};
    ghost use Rattle.st_format.specs.Turns.{CountsTurn, Due, IsEnd, IsWithin, TakesTurn, arrived};
    ghost use Rattle.st_format.specs.declared.device.SourceFault.{SourceFault as Fault};
    ghost use Rattle.st_format.specs.declared.path.Path.{Path as By};

    /// The turns to come, first one first: datagrams with their octets and paths, and turns without
    /// one; `None` where the device can't tell them.
    ghost turns: { Self → Option (List Due) };

    /// All datagrams that its calls gave so far, each with its path, in order.
    ghost came: { Self → List (By × List ℕ) };

    /// Its last call told the end. Before the first call, and after one that failed, it is not
    /// said.
    ghost ended: { Self → Type 0 };

    /// How many datagrams its calls gave so far.
    ghost delivered: { Self → ℕ };

    /// How many of its calls failed so far.
    ghost failures: { Self → ℕ };

    /// The fault of its last call that failed; none before one.
    ghost last_fault: { Self → Option Fault };

    /// What the source of octets below it told when this source began to read it, which stays.
    /// Nothing where there is none.
    ghost before: { Self → Told } = { λ _. told_nothing };

    /// The references by which it reaches what it reads from, which stay. None where it owns that.
    ghost names: { Self → List GName } = { λ _. [] };

    /// Tells the first of the turns to come, which is then past, or `End` where none is left. The
    /// octets of a datagram stand at the front of `buf`, which has room for any datagram: 65,535
    /// octets. What `buf` holds behind them, or after another turn, is not said.
    ///
    /// An `Err` is one failure more, and the source's last fault, which stays until the next one.
    /// It delivers nothing, and says nothing of what is to come.
    fn next(&mut self, buf: &mut [u8]) -> Result<Turn, SourceFault>
        requires { 65535 ≤ length buf.old }
        ensures room { length buf.new ≡ length buf.old }
        ensures within { IfOk result (λ t. IsWithin t) }
        ensures turn { IfOk result (λ t. TakesTurn (turns self.old) (turns self.new) t buf.new) }
        ensures delivered { MatchResult result
            (λ t. CountsTurn t (delivered self.old) (delivered self.new))
            (λ _. delivered self.new ≡ delivered self.old) }
        ensures counted { CountsFaults (failures self.old) (failures self.new) result }
        ensures last { IfErr result (λ e. last_fault self.new ≡ Some e) }
        ensures blameless { OnOk result (last_fault self.new ≡ last_fault self.old) }
        ensures before { before self.new ≡ before self.old }
        ensures names { names self.new ≡ names self.old }
        ensures came { IfOk result (λ t. came self.new ≡ came self.old ++ arrived t buf.new) }
        ensures ended { IfOk result (λ t. ended self.new ↔ IsEnd t) }
        ensures kept { OnErr result (came self.new ≡ came self.old) };
}

impl<S: ByteSource> ByteSource for &mut S {
    ghost to_give = { λ s. S.to_give s.now };

    ghost gave = { λ s. S.gave s.now };

    ghost ended = { λ s. S.ended s.now };

    ghost failures = { λ s. S.failures s.now };

    ghost at_hand = { λ s. S.at_hand s.now };

    ghost names = { λ s. s.ghost_name ∷ [] };

    fn read(&mut self, buf: &mut [u8]) -> Result<usize, DeviceFault> {
        ByteSource::read(&mut **self, buf)
    }

    fn peek(&self) -> &[u8] {
        ByteSource::peek(&**self)
    }

    fn pass(&mut self, count: usize) -> bool {
        ByteSource::pass(&mut **self, count)
    }
}

impl<K: ByteSink> ByteSink for &mut K {
    ghost held = { λ k. K.held k.now };

    ghost took = { λ k. K.took k.now };

    ghost failures = { λ k. K.failures k.now };

    ghost names = { λ k. k.ghost_name ∷ [] };

    fn write(&mut self, octets: &[u8]) -> Result<usize, DeviceFault> {
        ByteSink::write(&mut **self, octets)
    }
}

impl<K: DatagramSink> DatagramSink for &mut K {
    ghost taken = { λ k. K.taken k.now };

    ghost took = { λ k. K.took k.now };

    ghost failures = { λ k. K.failures k.now };

    ghost takes = { λ old octets new. K.takes old.now octets new.now };

    ghost fails = { λ old octets new. K.fails old.now octets new.now };

    fn put(&mut self, octets: &[u8]) -> Result<(), SinkFault> {
        DatagramSink::put(&mut **self, octets)
    }
}

impl<D: DatagramSource> DatagramSource for &mut D {
    ghost turns = { λ d. D.turns d.now };

    ghost came = { λ d. D.came d.now };

    ghost ended = { λ d. D.ended d.now };

    ghost delivered = { λ d. D.delivered d.now };

    ghost failures = { λ d. D.failures d.now };

    ghost last_fault = { λ d. D.last_fault d.now };

    ghost before = { λ d. D.before d.now };

    ghost names = { λ d. d.ghost_name ∷ [] };

    fn next(&mut self, buf: &mut [u8]) -> Result<Turn, SourceFault> {
        DatagramSource::next(&mut **self, buf)
    }
}

/// Reads until `buf` is full or the source is at its end, and answers how many octets stand at the
/// front of `buf`. Fewer than `buf` has room for means the end.
///
/// An `Err` is the source's one failure in this call. The octets given before it are lost to the
/// source, and stand at the front of `buf`, which they do not fill.
pub fn read_whole<S: ByteSource>(source: &mut S, buf: &mut [u8]) -> Result<usize, DeviceFault>
    ensures room { length buf.new ≡ length buf.old }
    ensures within { IfOk result (λ n. n ≤ length buf.new) }
    ensures given { IfOk result
        (λ n. Consumes (S.to_give source.old) (S.to_give source.new) (take n buf.new)) }
    ensures short { IfOk result (λ n. n < length buf.new → IsAtEnd (S.to_give source.new)) }
    ensures fault { OnErr result
        (ConsumesPrefix (S.to_give source.old) (S.to_give source.new) buf.new) }
    ensures octets { 0 < length buf.old → TellsOctets (S.to_give source.old) }
    ensures counted { CountsFaults (S.failures source.old) (S.failures source.new) result }
    ensures names { S.names source.new ≡ S.names source.old }
    ensures gave { IfOk result (λ n. S.gave source.new ≡ S.gave source.old ++ take n buf.new) }
    ensures ended { IfOk result (λ n. n < length buf.new → S.ended source.new) }
    // What was given, and what the source told of it, is one and the same part of `buf`.
    ensures part { OnErr result (GivesPart (S.to_give source.old) (S.to_give source.new)
        (S.gave source.old) (S.gave source.new) buf.new) }
{
    let mut filled = 0;
    while filled < buf.len() {
        let n = source.read(&mut buf[filled..])?;
        if n == 0 {
            return Ok(filled);
        }
        filled += n;
    }
    Ok(filled)
}

/// Writes all of `octets`.
///
/// An `Err` is the sink's one failure in this call. The sink has then taken octets from the front
/// of `octets`, maybe none, and not all.
pub fn write_whole<K: ByteSink>(sink: &mut K, octets: &[u8]) -> Result<(), DeviceFault>
    ensures ok { OnOk result (Appends (K.held sink.old) (K.held sink.new) octets.now) }
    ensures fault { OnErr result (AppendsPrefix (K.held sink.old) (K.held sink.new) octets.now) }
    ensures untold { StaysUntold (K.held sink.old) (K.held sink.new) }
    ensures counted { CountsFaults (K.failures sink.old) (K.failures sink.new) result }
    ensures names { K.names sink.new ≡ K.names sink.old }
    ensures took { OnOk result (K.took sink.new ≡ K.took sink.old ++ octets.now) }
    ensures part { OnErr result (GrowsPart (K.took sink.old) (K.took sink.new) octets.now) }
{
    let mut done = 0;
    while done < octets.len() {
        done += sink.write(&octets[done..])?;
    }
    Ok(())
}
