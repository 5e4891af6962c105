//! Laws over the definitions alone. Each is the contract of a function that does nothing.
ghost use Rattle.std.specs.Prelude.{◌≤◌, ◌<◌, ◌+◌, ℕ};
ghost use Rattle.paced_export.specs.Pacing.{begin_of, paced_moment};
ghost use Rattle.paced_export.specs.declared.pace.Pace.{Pace as Paces};

/// The packets of a frame are sent one after the other, from its begin on, and none behind its
/// active time.
pub fn within_active_time()
    ensures first { (p : Paces) (ts n : ℕ) → paced_moment p ts 0 n ≤ begin_of p ts }
    ensures rises { (p : Paces) (ts k l n : ℕ) → k ≤ l
        → paced_moment p ts k n ≤ paced_moment p ts l n }
    ensures within { (p : Paces) (ts k n : ℕ) → k < n
        → paced_moment p ts k n ≤ begin_of p ts + p.active }
{}
