//! A sink of octets that doesn't tell what it holds.
ghost use Rattle.std.specs.Prelude.{◌≡◌, None};

use st_format::{ByteSink, DeviceFault};

/// A sink of octets that doesn't tell what it holds, whatever the one that it owns tells. So a
/// capture is begun behind whatever that holds: a `CaptureWriter` asks of a sink that tells its
/// octets that it holds none.
#[derive(Drop)]
pub(crate) struct Untold<K: ByteSink> {
    sink: K,
}

impl<K: ByteSink> Untold<K> {
    /// Owns this sink.
    pub(crate) fn new(sink: K) -> Untold<K>
        ensures { result.sink ≡ sink }
    {
        Untold { sink }
    }

    /// Gives the sink back, as it then is.
    pub(crate) fn into_inner(self) -> K
        ensures { result ≡ self.sink }
    {
        self.sink
    }
}

impl<K: ByteSink> ByteSink for Untold<K> {
    ghost held = { λ _. None };

    ghost took = { λ u. K.took u.sink };

    ghost failures = { λ u. K.failures u.sink };

    ghost names = { λ u. K.names u.sink };

    fn write(&mut self, octets: &[u8]) -> Result<usize, DeviceFault> {
        self.sink.write(octets)
    }
}
