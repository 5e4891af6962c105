//! Laws over the definitions alone. Each is the contract of a function that does nothing.
ghost use Rattle.std.specs.Prelude.{◌≡◌, ◌≤◌, ℕ, List, Some};
ghost use Rattle.following.specs.Serial.{ahead_of};
ghost use Rattle.side_by_side.specs.Going.{first_place};
ghost use Rattle.side_by_side.specs.Oldest.{GoWithinHalf};
ghost use Rattle.side_by_side.specs.declared.going.Going.{Going as When};
ghost use Rattle.side_by_side.specs.declared.going.Going.TheVariants.{AtOnce, By};
ghost use Rattle.st_format.specs.Member.{IsMember};

/// Where the timestamps of the next datagrams are within half of a round, the file that goes first
/// by its timestamp has the oldest (`oldest`), and no datagram goes at once then (`none_at_once`).
/// So it is of two files, whatever their timestamps but two that are just half of a round apart, of
/// which neither is the older.
pub fn first_is_oldest()
    ensures oldest { (base place timestamp other : ℕ) (goings : List When) →
        GoWithinHalf base goings → first_place goings ≡ Some (place, By timestamp) →
        IsMember (By other) goings → ahead_of timestamp base ≤ ahead_of other base }
    ensures none_at_once { (base place timestamp : ℕ) (goings : List When) →
        GoWithinHalf base goings → first_place goings ≡ Some (place, By timestamp) →
        IsMember AtOnce goings → ⊥ }
{}
