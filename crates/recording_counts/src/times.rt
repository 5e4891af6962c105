//! When the datagrams of a flow came.
ghost use Rattle.std.specs.Prelude.{◌≡◌, ◌++◌, ◌∷◌, ℕ, List, [], Option, max, min};
ghost use Rattle.std.specs.Option.{option_map_or};
ghost use Rattle.recording_counts.specs.FlowCounts.{times_of};

/// The least and the greatest of the times of datagrams, of those that have one, in nanoseconds
/// since 1970.
#[derive(Clone, Copy, Debug, PartialEq, Eq)]
pub struct Times {
    pub first: Option<u64>,
    pub last: Option<u64>,
}

impl Times {
    /// Of no datagrams.
    pub(crate) fn new() -> Times
        ensures { result ≡ times_of [] }
    {
        Times {
            first: None,
            last: None,
        }
    }

    /// Notes the time of one more datagram.
    pub(crate) fn note(&mut self, time: Option<u64>)
        ensures { (all : List (Option ℕ)) → self.old ≡ times_of all
            → self.new ≡ times_of (all ++ time ∷ []) }
    {
        match time {
            Some(moment) => {
                let first = least(self.first, moment);
                let last = greatest(self.last, moment);
                self.first = Some(first);
                self.last = Some(last);
            }
            None => {}
        }
    }
}

/// The lesser one of a time and the least before it, if there is one.
fn least(lowest: Option<u64>, time: u64) -> u64
    ensures { result ≡ option_map_or (λ l. min l time) lowest time }
{
    match lowest {
        Some(lowest) => lowest.min(time),
        None => time,
    }
}

/// The greater one of a time and the greatest before it, if there is one.
fn greatest(highest: Option<u64>, time: u64) -> u64
    ensures { result ≡ option_map_or (λ h. max h time) highest time }
{
    match highest {
        Some(highest) => highest.max(time),
        None => time,
    }
}
