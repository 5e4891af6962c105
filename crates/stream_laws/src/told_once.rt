//! The law on which refusal `follow` tells, over the definitions alone: by what a run read it is
//! one. It is the contract of a function that does nothing.
ghost use Rattle.std.specs.Prelude.{◌≡◌, ◌⊎◌, ℕ, List, Option, Result};
ghost use Rattle.std.specs.List.{AllZip};
ghost use Rattle.flow.specs.declared.flows.Flows.{Flows};
ghost use Rattle.follow_engine.specs.Refused.{IsFollowRefusal};
ghost use Rattle.follow_engine.specs.Sides.{SideRead};
ghost use Rattle.run_laws.specs.Told.{AreOfOneFault};
ghost use Rattle.run_outcome.specs.declared.refusal.Refusal.{Refusal};
ghost use Rattle.side_by_side.specs.declared.side.Side.{Side};

use st_format::ByteSource;
use std::alloc::Allocator;

/// What a run of `follow_files` read determines its refusal: any two are one, or both are of one
/// fault of an SDP text.
pub fn one_follow_refusal<A: Allocator, S: ByteSource>()
    ensures { (frames : ℕ) (ssrc : List ℕ) (sdp : Option (List ℕ))
        (ways : List (Result Flows Refusal)) (files : List (Side A S × Side A S))
        (octets : List (List ℕ)) (r other : Refusal)
        → AllZip (SideRead S.gave S.ended) files octets
        → IsFollowRefusal frames ssrc sdp ways (SideRead S.gave S.ended) files r
        → IsFollowRefusal frames ssrc sdp ways (SideRead S.gave S.ended) files other
        → (r ≡ other) ⊎ AreOfOneFault r other }
{}
