//! What the datagrams of a job's picture say to a receiver: a law over the definitions alone, the
//! contract of a function that does nothing.
ghost use Rattle.std.specs.Prelude.{◌≡◌, ◌++◌, ℕ, List, Ok, Some};
ghost use Rattle.st_format.specs.Picture.{Values};
ghost use Rattle.packet_plan.specs.declared.stamp.Stamp.{Stamp};
ghost use Rattle.key_mix.specs.Sending.{IsSentJob, Sends};
ghost use Rattle.key_mix.specs.declared.Job.{Job};
ghost use Rattle.receiver_engines.specs.Offered.{OffersJob};

/// The datagrams of a job's picture offer that picture to a receiver that is opened for them
/// (`datagrams`); and so does what `send_job` puts into a sink that takes all of it (`sent`; RFC
/// 4175, 4.3; SMPTE ST 2110-20, packets).
pub fn offered_by_job()
    ensures datagrams { (j : Job) (pictures : List Values) (size : ℕ) (stamp : Stamp)
        (datagrams : List (List ℕ))
        → IsSentJob datagrams j pictures size stamp → OffersJob datagrams j pictures stamp }
    ensures sent { (j : Job) (pictures : List Values) (size : ℕ) (stamp : Stamp)
        (old new : List (List ℕ)) (next : ℕ)
        → Sends (λ ds. IsSentJob ds j pictures size stamp) stamp.first (Some old) (Some new)
        (Ok next)
        → (datagrams : List (List ℕ)) × (new ≡ old ++ datagrams)
        × OffersJob datagrams j pictures stamp }
{}
