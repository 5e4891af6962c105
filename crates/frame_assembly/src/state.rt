//! What is known of a pgroup as a whole, and the mark word that says it.
ghost use Rattle.std.specs.Prelude.{◌≡◌, ◌≤◌, ◌⊎◌, List, length};

/// Bit 15 of a mark word: the group has no missing sample.
pub const PRESENT: u16 = 0x8000;

/// What is known of the samples of a pgroup.
#[derive(Clone, Copy, Debug, PartialEq, Eq)]
pub enum GroupState {
    /// Nothing is known of any of its samples: a datagram has all of a group, or none.
    Gone,
    /// Each of its samples has a value.
    Whole,
    /// None is missing, and sample `i` is contested where bit `i` is set.
    Mixed(u16),
}

impl GroupState {
    ghost use Rattle.st_format.specs.declared.cell.Cell.{Cell};
    ghost use Rattle.frame_assembly.specs.Marks.{IsSayable, contested_mask, is_group_present};
    ghost use Rattle.frame_assembly.specs.Marks.{mark_of_state, state_of_mark};
    ghost use Rattle.frame_assembly.specs.Rows.{IsMarkOf, IsStateOf};

    /// What a mark word says of its pgroup: bit 15 that it has no missing sample, and bit `i` that
    /// its sample `i` is contested.
    #[inline(always)]
    pub fn of_mark(mark: u16) -> GroupState
        ensures state { result ≡ state_of_mark mark }
        ensures cells { (cells : List Cell) → length cells ≤ 12 → IsMarkOf mark cells
            → IsStateOf result cells }
        ensures again { (mark ≡ 0) ⊎ (PRESENT ≤ mark) → mark_of_state result ≡ mark }
    {
        if mark < PRESENT {
            GroupState::Gone
        } else if mark == PRESENT {
            GroupState::Whole
        } else {
            GroupState::Mixed(mark - PRESENT)
        }
    }

    /// The mark word that says this: 0 of a missing pgroup, else bit 15 beside the mask.
    ///
    /// `of_mark` answers this state again, unless it is one that no mark word says: a mask 0 has
    /// the word of `Whole`, and bit 15 of a mask is lost.
    #[inline(always)]
    pub fn mark(self) -> u16
        ensures mark { result ≡ mark_of_state self }
        ensures cells { (cells : List Cell) → length cells ≤ 12 → IsStateOf self cells
            → IsMarkOf result cells }
        ensures again { IsSayable self → state_of_mark result ≡ self }
    {
        match self {
            GroupState::Gone => 0,
            GroupState::Whole => PRESENT,
            GroupState::Mixed(mask) => PRESENT | mask,
        }
    }

    /// Whether no sample is missing.
    #[inline(always)]
    pub fn is_present(self) -> bool
        ensures { result ≡ is_group_present self }
    {
        !matches!(self, GroupState::Gone)
    }

    /// A bit for each contested sample: 0 where none is.
    #[inline(always)]
    pub fn mask(self) -> u16
        ensures { result ≡ contested_mask self }
    {
        match self {
            GroupState::Gone | GroupState::Whole => 0,
            GroupState::Mixed(mask) => mask,
        }
    }
}
