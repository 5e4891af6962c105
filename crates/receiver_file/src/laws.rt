//! Laws on receivers' files. Each function does nothing: its contract is the law.
ghost use Rattle.std.specs.Prelude.{◌≡◌, ◌↔◌, ◌⊎◌, ℕ, Err, List};
ghost use Rattle.st_format.specs.Device.{AreOctets};
ghost use Rattle.st_format.specs.Member.{SameDatagrams};
ghost use Rattle.path_receiver.specs.Frames.{Holds, State};
ghost use Rattle.media_file.specs.declared.fault.FileFault.{FileFault};
ghost use Rattle.media_file.specs.StateFile.{Kept, state_text};
ghost use Rattle.receiver_file.specs.Saved.{IsSaved, kept_of};
ghost use Rattle.receiver_file.specs.StateFaults.{IsStateFault};
ghost use Rattle.receiver_file.specs.StateReading.{state_walk};

/// Receivers opened alike that took the same datagrams, by either path, in any order and with any
/// repeats, have equal files (SMPTE ST 2022-7).
pub fn equal_files()
    ensures { (r s : State) (xs ys : List (List ℕ)) → r.opening ≡ s.opening
        → Holds r xs → Holds s ys → SameDatagrams xs ys
        → state_text (kept_of r) ≡ state_text (kept_of s) }
{}

/// Octets are read as a receiver's file with a fault exactly where the fault's condition holds.
pub fn state_fault()
    ensures { (f : FileFault) (octets : List ℕ) → AreOctets octets
        → (state_walk octets ≡ Err f) ↔ IsStateFault f octets }
{}

/// At most one fault's condition holds of a receiver's file.
pub fn one_state_fault()
    ensures { (f g : FileFault) (octets : List ℕ) → AreOctets octets
        → IsStateFault f octets → IsStateFault g octets → f ≡ g }
{}

/// Octets are the file of a receiver, or a fault's condition holds of them.
pub fn state_or_fault()
    ensures { (octets : List ℕ) → AreOctets octets
        → ((k : Kept) × IsSaved k × (octets ≡ state_text k))
        ⊎ ((f : FileFault) × IsStateFault f octets) }
{}
