//! Laws on which refusal is told, over the definitions alone: by what a run read it is one. Each is
//! the contract of a function that does nothing.
ghost use Rattle.std.specs.Prelude.{◌≡◌, ◌⊎◌, ℕ, List, Option, Result};
ghost use Rattle.flow.specs.declared.flows.Flows.{Flows};
ghost use Rattle.st_format.specs.Device.{AreOctets};
ghost use Rattle.st_format.specs.Member.{IsMember};
ghost use Rattle.run_outcome.specs.Moments.{WasRead};
ghost use Rattle.run_outcome.specs.declared.refusal.Refusal.{Refusal};
ghost use Rattle.capture_engines.specs.Received.{IsReceiveRefusal, IsReceivingRefusal};
ghost use Rattle.capture_engines.specs.Sent.{IsSendRefusal};
ghost use Rattle.run_laws.specs.Received.{read_of};
ghost use Rattle.run_laws.specs.Told.{AreOfOneFault};

use st_format::ByteSource;

/// What a run of `send` read determines its refusal: any two are one, or both are of one fault of
/// the SDP text.
pub fn one_send_refusal<S: ByteSource>()
    ensures { (most count : ℕ) (sdp sdp_later : Option S) (pictures : List (S × S))
        (r other : Refusal)
        → ((s : S × S) → IsMember s pictures → AreOctets (read_of S.gave s))
        → IsSendRefusal most count sdp sdp_later (WasRead S.gave S.ended) pictures r
        → IsSendRefusal most count sdp sdp_later (WasRead S.gave S.ended) pictures other
        → (r ≡ other) ⊎ AreOfOneFault r other }
{}

/// What a run of `receive` read determines its refusal, whatever the octets: any two are one, or
/// both are of one fault of an SDP text.
pub fn one_receive_refusal<S: ByteSource>()
    ensures { (window source : List ℕ) (sdp : Option (S × S)) (captures : List (S × S))
        (r other : Refusal)
        → IsReceiveRefusal window source sdp (WasRead S.gave S.ended) captures r
        → IsReceiveRefusal window source sdp (WasRead S.gave S.ended) captures other
        → (r ≡ other) ⊎ AreOfOneFault r other }
{}

/// So of files that are received by an SDP text that is given itself, or by that of the first,
/// each taken in its way: captures, and recordings of other tools.
pub fn one_receiving_refusal<S: ByteSource>()
    ensures { (window source : List ℕ) (sdp : Option (List ℕ))
        (ways : List (Result Flows Refusal)) (files : List (S × S)) (r other : Refusal)
        → IsReceivingRefusal window source sdp ways (WasRead S.gave S.ended) files r
        → IsReceivingRefusal window source sdp ways (WasRead S.gave S.ended) files other
        → (r ≡ other) ⊎ AreOfOneFault r other }
{}
