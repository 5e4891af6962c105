//! The timestamps of a window.
ghost use Rattle.std.specs.Prelude.{◌≡◌, ◌≢◌, ◌↔◌, All, IfSome, IfNone, IsErrOf, IsOk, IsTrue};
ghost use Rattle.std.specs.Prelude.{IsFalse, Some, length, slice_get};
ghost use Rattle.st_format.specs.Member.{IsMember};
ghost use Rattle.path_receiver.specs.Opening.{AreDifferent, IsWindow, IsWindowSize};

use crate::fault::OpenFault;

/// The most timestamps that a window has (own).
pub const MOST_TIMESTAMPS: usize = 16;

/// Whether a window has 1 to 16 timestamps, all different: the first fault, in their order.
pub fn check_window(window: &[u32]) -> Result<(), OpenFault>
    ensures size { IsErrOf result OpenFault.BadWindow ↔ (IsWindowSize (length window.now) → ⊥) }
    ensures double { IsErrOf result OpenFault.DoubleTimestamp
        ↔ (IsWindowSize (length window.now) × (AreDifferent window.now → ⊥)) }
    ensures memory { IsErrOf result OpenFault.NoMemory → ⊥ }
    ensures window { IsOk result → IsWindow window.now }
{
    if window.is_empty() || window.len() > MOST_TIMESTAMPS {
        return Err(OpenFault::BadWindow);
    }
    if has_double(window) {
        return Err(OpenFault::DoubleTimestamp);
    }
    Ok(())
}

/// Whether a timestamp stands twice: of 16 at most each is compared with those behind it.
fn has_double(window: &[u32]) -> bool
    ensures double { IsTrue result → AreDifferent window.now → ⊥ }
    ensures different { IsFalse result → AreDifferent window.now }
{
    match window {
        [] => false,
        [first, rest @ ..] => rest.contains(first) || has_double(rest),
    }
}

/// Whether a window has a timestamp already: none may stand twice in it.
pub fn has_timestamp(window: &[u32], timestamp: u32) -> bool
    ensures { IsTrue result ↔ IsMember timestamp window.now }
{
    window.contains(&timestamp)
}

/// The place of a timestamp, from 0, where the window has it: there stands its frame.
pub fn place_of(window: &[u32], timestamp: u32) -> Option<usize>
    ensures found { IfSome result (λ i. slice_get window.now i ≡ Some timestamp) }
    ensures none { IfNone result (All (λ t. t ≢ timestamp) window.now) }
{
    window.iter().position(|t| *t == timestamp)
}
