//! What a schedule needs before its first event.
ghost use Rattle.std.specs.Prelude.{◌≡◌, All, IfErr, IsFalse, IsTrue, OnOk};
ghost use Rattle.st_format.specs.Picture.{IsPicture};
ghost use Rattle.path_receiver.specs.Opening.{IsWindow};
ghost use Rattle.path_merge.specs.Played.{ArePictures, IsReceiverCount};
ghost use Rattle.path_merge.specs.Unfit.{IsUnfitPlay, SpeaksAgainst};

use path_receiver::{OpenFault, PlayFault, check_window};
use st_format::{Format, Picture};
use std::alloc::Allocator;

/// The most pictures of one sender (own): the first one behind them is at fault.
pub const MOST_PICTURES: usize = 10_000;

/// The most receivers of a schedule (own).
const MOST_RECEIVERS: u8 = 8;

/// Whether a schedule can be played, its events aside, or the first fault: of its window, its
/// pictures and its receivers, in this order.
pub fn check<C: Allocator>(
    format: Format,
    pictures: &[Picture<C>],
    window: &[u32],
    receivers: u8,
) -> Result<(), PlayFault>
    ensures fault { IfErr result (λ e.
        SpeaksAgainst e window.now pictures.now format receivers) }
    ensures fine { OnOk result (IsWindow window.now × ArePictures pictures.now format
        × IsReceiverCount receivers) }
    ensures whole { OnOk result (All IsPicture pictures.now) }
{
    match check_window(window) {
        Ok(()) => check_rest(format, pictures, receivers),
        Err(OpenFault::DoubleTimestamp) => Err(PlayFault::DoubleTimestamp),
        Err(_) => Err(PlayFault::BadWindow),
    }
}

/// The same, the window aside.
fn check_rest<C: Allocator>(
    format: Format,
    pictures: &[Picture<C>],
    receivers: u8,
) -> Result<(), PlayFault>
    ensures fault { IfErr result (λ e. IsUnfitPlay e pictures.now format receivers) }
    ensures fine { OnOk result (ArePictures pictures.now format × IsReceiverCount receivers) }
    ensures whole { OnOk result (All IsPicture pictures.now) }
{
    if pictures.len() > MOST_PICTURES || !are_of_format(format, pictures) {
        return Err(PlayFault::BadPictures);
    }
    if receivers == 0 || receivers > MOST_RECEIVERS {
        return Err(PlayFault::BadReceivers);
    }
    Ok(())
}

/// Whether all pictures are of a format, which is the plan's.
fn are_of_format<C: Allocator>(format: Format, pictures: &[Picture<C>]) -> bool
    ensures all { IsTrue result → All (λ p. p.format ≡ format) pictures.now }
    ensures other { IsFalse result → All (λ p. p.format ≡ format) pictures.now → ⊥ }
    ensures whole { IsTrue result → All IsPicture pictures.now }
{
    for picture in pictures {
        if !picture.format().same(&format) {
            return false;
        }
    }
    true
}
