//! Laws over the definitions alone. Each is the contract of a function that does nothing.
ghost use Rattle.std.specs.Prelude.{◌≡◌, ◌++◌, ◌∷◌, [], ℕ, Bool, true, List};
ghost use Rattle.follow_engine.specs.Events.{Running, behind_all, events_in, events_of};
ghost use Rattle.follow_engine.specs.Events.{frames_of_events, is_anew, running_from};
ghost use Rattle.follow_engine.specs.Order.{GoesToFault};
ghost use Rattle.follow_engine.specs.Plain.{NoneAnew};
ghost use Rattle.following.specs.Follower.{Following, opened};
ghost use Rattle.following.specs.Turned.{handed_all};
ghost use Rattle.media_file.specs.Records.{Entry};
ghost use Rattle.recording_engines.specs.Joining.{Strand};
ghost use Rattle.recording_reader.specs.declared.fault.ReadingFault.{ReadingFault};
ghost use Rattle.side_by_side.specs.declared.steering.Steering.{Steering};

/// Where a stream isn't followed anew, the frames that leave it are those that a follower hands out
/// of its datagrams, with those that are in at the end: so every law of a follower holds of them.
pub fn plain()
    ensures { (eager : Bool) (s : Following) (datagrams : List (List ℕ)) →
        NoneAnew eager (running_from s) datagrams →
        frames_of_events (events_of eager (running_from s) datagrams)
        ≡ handed_all eager s datagrams }
{}

/// A stream that is followed anew is as two streams. Where that is so at a datagram for the first
/// time, the frames that leave it are first those that a follower hands out of the datagrams up to
/// that one, with those that are in then; and behind them those that leave a stream which begins
/// with the next datagram.
pub fn two_streams()
    ensures { (eager : Bool) (s : Following) (before rest : List (List ℕ)) (octets : List ℕ) →
        NoneAnew eager (running_from s) before →
        is_anew (behind_all eager (running_from s) before) octets ≡ true →
        frames_of_events (events_of eager (running_from s) (before ++ octets ∷ rest))
        ≡ handed_all eager s (before ++ octets ∷ []) ++ frames_of_events (events_of eager
        (running_from (opened s.opening s.size s.most_ahead)) rest) }
{}

/// What happens to a list of datagrams that is taken in two parts is as to one.
pub fn in_parts()
    ensures behind { (eager : Bool) (r : Running) (first rest : List (List ℕ)) →
        behind_all eager r (first ++ rest) ≡ behind_all eager (behind_all eager r first) rest }
    ensures events { (eager : Bool) (r : Running) (first rest : List (List ℕ)) →
        events_in eager r (first ++ rest)
        ≡ events_in eager r first ++ events_in eager (behind_all eager r first) rest }
{}

/// By the records that files have one fault is that of the file whose turn it is, behind the same
/// records: of several files that are at theirs it is the first one's.
pub fn one_fault_in_turn()
    ensures { (s : Steering) (strands : List Strand) (entries others : List Entry)
        (f g : ReadingFault) → GoesToFault f s strands entries → GoesToFault g s strands others
        → (f ≡ g) × (entries ≡ others) }
{}
