//! Links: sinks of datagrams that are their sources too.
ghost use Rattle.std.specs.Prelude.{◌≡◌, ◌≤◌, ◌++◌, ◌∷◌, ◌↔◌, [], IfErr, IfOk, MatchResult, OnErr};
ghost use Rattle.std.specs.Prelude.{OnOk, Some, length};
ghost use Rattle.st_format.specs.Device.{CountsFaults, KeepsAll, TakesOne};
ghost use Rattle.st_format.specs.Turns.{CountsTurn, IsEnd, IsWithin, TakesTurn, arrived};

use crate::device::{DatagramSink, DatagramSource, SinkFault, SourceFault, Turn};

/// A link. What is put into it may come out of it or not, in any order and any number of times.
pub trait DatagramLink: DatagramSink + DatagramSource {
    /// Puts one datagram into the link, as [`DatagramSink::put`] does. That delivers none: what
    /// comes out comes in a turn.
    fn send(&mut self, octets: &[u8]) -> Result<(), SinkFault>
        requires { length octets.now ≤ 65535 }
        ensures taken { OnOk result (TakesOne (Self.DatagramSink.taken self.old)
            (Self.DatagramSink.taken self.new) octets.now) }
        ensures fault { OnErr result (KeepsAll (Self.DatagramSink.taken self.old)
            (Self.DatagramSink.taken self.new)) }
        ensures counted { CountsFaults (Self.DatagramSink.failures self.old)
            (Self.DatagramSink.failures self.new) result }
        ensures took { OnOk result (Self.DatagramSink.took self.new
            ≡ Self.DatagramSink.took self.old ++ octets.now ∷ []) }
        ensures kept { OnErr result
            (Self.DatagramSink.took self.new ≡ Self.DatagramSink.took self.old) }
        ensures delivered { Self.DatagramSource.delivered self.new
            ≡ Self.DatagramSource.delivered self.old }
        ensures came { Self.DatagramSource.came self.new ≡ Self.DatagramSource.came self.old };

    /// Takes one turn of the link, as [`DatagramSource::next`] does. That puts none, which `next`
    /// can't say: a source needs no sink.
    fn turn(&mut self, buf: &mut [u8]) -> Result<Turn, SourceFault>
        requires { 65535 ≤ length buf.old }
        ensures room { length buf.new ≡ length buf.old }
        ensures within { IfOk result (λ t. IsWithin t) }
        ensures turn { IfOk result (λ t. TakesTurn (Self.DatagramSource.turns self.old)
            (Self.DatagramSource.turns self.new) t buf.new) }
        ensures delivered { MatchResult result
            (λ t. CountsTurn t (Self.DatagramSource.delivered self.old)
            (Self.DatagramSource.delivered self.new))
            (λ _. Self.DatagramSource.delivered self.new
            ≡ Self.DatagramSource.delivered self.old) }
        ensures counted { CountsFaults (Self.DatagramSource.failures self.old)
            (Self.DatagramSource.failures self.new) result }
        ensures last { IfErr result (λ e. Self.DatagramSource.last_fault self.new ≡ Some e) }
        ensures blameless { OnOk result (Self.DatagramSource.last_fault self.new
            ≡ Self.DatagramSource.last_fault self.old) }
        ensures before { Self.DatagramSource.before self.new
            ≡ Self.DatagramSource.before self.old }
        ensures names { Self.DatagramSource.names self.new ≡ Self.DatagramSource.names self.old }
        ensures came { IfOk result (λ t. Self.DatagramSource.came self.new
            ≡ Self.DatagramSource.came self.old ++ arrived t buf.new) }
        ensures ended { IfOk result (λ t. Self.DatagramSource.ended self.new ↔ IsEnd t) }
        ensures kept { OnErr result
            (Self.DatagramSource.came self.new ≡ Self.DatagramSource.came self.old) }
        ensures taken { Self.DatagramSink.taken self.new ≡ Self.DatagramSink.taken self.old }
        ensures took { Self.DatagramSink.took self.new ≡ Self.DatagramSink.took self.old };

    /// It counts each failure once, as a sink and as a source: so a run blames a link just where it
    /// failed.
    ghost one_count: { (link : Self)
        → Self.DatagramSink.failures link ≡ Self.DatagramSource.failures link };
}
