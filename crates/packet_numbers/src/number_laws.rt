//! Laws over the definitions of packet numbers alone. Each is the contract of a function that does
//! nothing.
ghost use Rattle.std.specs.Prelude.{◌≡◌, ◌↔◌, ℕ, List};
ghost use Rattle.packet_numbers.specs.Numbers.{AreAlike, AreMissingRuns, IsNoted, Numbers};
ghost use Rattle.packet_numbers.specs.Numbers.{after_notes, union};
ghost use Rattle.st_format.specs.Member.{SameMembers};

/// A map is its places: maps opened alike that noted the same places are equal.
pub fn one_map_of_places()
    ensures { (m n : Numbers) → AreAlike m n → ((place : ℕ) → IsNoted m place ↔ IsNoted n place)
        → m ≡ n }
{}

/// Maps into which the same packet numbers were noted, in any order and with any repeats, are
/// equal.
pub fn same_numbers()
    ensures { (m : Numbers) (xs ys : List ℕ) → SameMembers xs ys
        → after_notes m xs ≡ after_notes m ys }
{}

/// Two maps joined are the same whichever is joined to the other.
pub fn joined_either_way()
    ensures { (m n : Numbers) → AreAlike m n → union m n ≡ union n m }
{}

/// A map has one list of missing runs.
pub fn one_list_of_runs()
    ensures { (m : Numbers) (xs ys : List (ℕ × ℕ)) → AreMissingRuns m xs → AreMissingRuns m ys
        → xs ≡ ys }
{}
