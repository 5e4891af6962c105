//! What a receiver is opened with, said piece by piece.
ghost use Rattle.std.specs.Prelude.{◌≡◌, ◌↔◌, ◌≤◌, [], IfOk, IsErrOf, None, Some, length};
ghost use Rattle.path_receiver.specs.Frames.{Holds, IsReceiver};
ghost use Rattle.path_receiver.specs.Opening.{AreDifferent, IsWindowSize};

use crate::fault::OpenFault;
use crate::receiver::Receiver;
use st_format::Format;
use std::alloc::Allocator;
use std::marker::Model;

/// What a receiver is opened with: a format and a payload type, and where they are said a source
/// and a window.
///
/// `Opening::new(format, 96).source(ssrc).window(&[900, 2400]).open(alloc)` is [`Receiver::open`]
/// with these values.
#[derive(Drop)]
pub struct Opening<'a> {
    format: Format,
    payload_type: u8,
    ssrc: Option<u32>,
    window: &'a [u32],
}

impl<'a> Model for Opening<'a> {
    ghost use Rattle.std.specs.Prelude.{◌≤◌};
    ghost use Rattle.path_receiver.specs.Opening.{Opening as Opened};

    ghost Value = { Opened };

    ghost view = { λ a. record {
      format = a.format;
      payload_type = a.payload_type;
      ssrc = a.ssrc;
      window = a.window.now;
    } };

    ghost invariant = { λ a. a.payload_type ≤ 127 };
}

impl<'a> Opening<'a> {
    /// A format and a payload type, of 7 bits (RFC 3550, 5.1); no source is pinned, and the window
    /// has no timestamp yet.
    pub fn new(format: Format, payload_type: u8) -> Opening<'a>
        requires { payload_type ≤ 127 }
        ensures { result ≡ record {
          format = format;
          payload_type = payload_type;
          ssrc = None;
          window = [];
        } }
    {
        Opening {
            format,
            payload_type,
            ssrc: None,
            window: &[],
        }
    }

    /// The same with a source that is pinned: datagrams of another are refused.
    pub fn source(mut self, ssrc: u32) -> Opening<'a>
        ensures { result ≡ record self.entry { ssrc = Some ssrc } }
    {
        self.ssrc = Some(ssrc);
        self
    }

    /// The same with these timestamps as the window, in ticks of 90 kHz.
    pub fn window(mut self, window: &'a [u32]) -> Opening<'a>
        ensures { result ≡ record self.entry { window = window.entry.now } }
    {
        self.window = window;
        self
    }

    /// A receiver that was opened with this and has taken nothing: the outcome of
    /// [`Receiver::open`].
    ///
    /// `BadWindow` comes where the window has no timestamp or more than 16, `DoubleTimestamp` where
    /// one stands twice in it, and then `NoMemory` only where the allocator refused the memory for
    /// the frames or for the refusals.
    pub fn open<A: Allocator + Copy>(self, alloc: A) -> Result<Receiver<A>, OpenFault>
        ensures opening { IfOk result (λ r. r.opening ≡ self.entry) }
        ensures holds { IfOk result (λ r. Holds r []) }
        ensures refusals { IfOk result (λ r. r.refusals ≡ []) }
        ensures receiver { IfOk result (λ r. IsReceiver r) }
        ensures size { IsErrOf result OpenFault.BadWindow
            ↔ (IsWindowSize (length self.entry.window) → ⊥) }
        ensures double { IsErrOf result OpenFault.DoubleTimestamp
            ↔ (IsWindowSize (length self.entry.window)
            × (AreDifferent self.entry.window → ⊥)) }
    {
        Receiver::open(
            alloc,
            self.format,
            self.payload_type,
            self.ssrc,
            self.window,
        )
    }
}
