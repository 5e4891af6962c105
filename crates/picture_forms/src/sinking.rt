//! Octets written whole, with what a sink holds and what it took as one fact.
ghost use Rattle.std.specs.Prelude.{◌≡◌, OnErr, OnOk};
ghost use Rattle.st_format.specs.Device.{CountsFaults};
ghost use Rattle.picture_forms.specs.Writing.{Writes, WritesPart};

use st_format::{ByteSink, DeviceFault, write_whole};

/// Writes all of `octets`, and less only where the device fails.
pub(crate) fn write_all<K: ByteSink>(sink: &mut K, octets: &[u8]) -> Result<(), DeviceFault>
    ensures ok { OnOk result (Writes (K.held sink.old) (K.held sink.new)
        (K.took sink.old) (K.took sink.new) octets.now) }
    ensures fault { OnErr result (WritesPart (K.held sink.old) (K.held sink.new)
        (K.took sink.old) (K.took sink.new) octets.now) }
    ensures counted { CountsFaults (K.failures sink.old) (K.failures sink.new) result }
    ensures names { K.names sink.new ≡ K.names sink.old }
{
    write_whole(sink, octets)
}
