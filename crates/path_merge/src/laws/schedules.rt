//! Laws over the definitions of schedules alone. Each is the contract of a function that does
//! nothing.
ghost use Rattle.std.specs.Prelude.{◌≡◌, ◌⊎◌, ◌<◌, ℕ, List, [], ◌++◌, ◌↔◌, ◌∷◌, length, Some};
ghost use Rattle.std.specs.Prelude.{slice_get};
ghost use Rattle.st_format.specs.declared.path.Path.{Path as ByPath};
ghost use Rattle.st_format.specs.Picture.{Values};
ghost use Rattle.st_format.specs.Raster.{Raster};
ghost use Rattle.st_format.specs.Device.{AreOctets};
ghost use Rattle.packet_plan.specs.Sender.{Sender};
ghost use Rattle.path_merge.specs.Admitted.{AreAdmittedTo, IsFirstBad, IsSchedule};
ghost use Rattle.path_receiver.specs.Frames.{Holds, IsReceiver, State, frames_of, joined_frames};
ghost use Rattle.path_merge.specs.Reached.{Chain, IsAt, IsFrameOf, LastStep, Spares, Scene};
ghost use Rattle.path_merge.specs.Sent.{IsOfSender, IsSendersFrame};
ghost use Rattle.path_receiver.specs.Sliding.{slid_state};
ghost use Rattle.path_merge.specs.Stays.{Lasts, Stay};
ghost use Rattle.path_merge.specs.declared.schedule.event.Event.{Event as AnEvent};
ghost use Rattle.path_merge.specs.declared.schedule.event.Event.TheVariants.{Arrive, Merge, Slide};

/// One event more. Only chains whose last step is that event are new; so the frames of the stays
/// that last are what `take`, `slide` and `merge` make of those before, receiver by receiver, and a
/// stay that has ended keeps its frame.
pub fn one_event_more()
    ensures chains { (window : List ℕ) (events : List AnEvent) (event : AnEvent) (number : ℕ)
        (stay : Stay) (place : ℕ) →
        Chain window (events ++ event ∷ []) number stay place
        ↔ (Chain window events number stay place
        ⊎ ((place ≡ length events) × LastStep window events event number stay)) }
    ensures opening { (s : Scene) (r : ℕ) (state : State) →
        state.opening ≡ s.opening → Holds state [] → IsAt state r s [] }
    ensures others { (s : Scene) (events : List AnEvent) (event : AnEvent) (r : ℕ) (state : State) →
        Spares event r → IsAt state r s events → IsAt state r s (events ++ event ∷ []) }
    ensures take { (s : Scene) (events : List AnEvent) (r number : ℕ) (path : ByPath)
        (octets : List ℕ) (state new : State) →
        slice_get s.sent number ≡ Some octets → AreOctets octets → IsAt state r s events →
        new.opening ≡ state.opening →
        new.frames ≡ joined_frames state.frames (frames_of state.opening (octets ∷ [])) →
        IsAt new r s (events ++ Arrive r path number ∷ []) }
    ensures slide { (s : Scene) (events : List AnEvent) (r next : ℕ) (state : State) →
        0 < length s.opening.window → IsAt state r s events →
        IsAt (slid_state state next) r s (events ++ Slide r next ∷ []) }
    ensures merge { (s : Scene) (events : List AnEvent) (r q : ℕ) (state other new : State) →
        IsAt state r s events → IsAt other q s events →
        state.opening ≡ other.opening → IsReceiver state →
        new.opening ≡ state.opening → new.frames ≡ joined_frames state.frames other.frames →
        IsAt new r s (events ++ Merge r q ∷ []) }
    ensures over { (s : Scene) (events : List AnEvent) (event : AnEvent) (stay : Stay)
        (frame : Raster) →
        (Lasts stay s.opening.window events → ⊥) → IsFrameOf frame stay s events →
        IsFrameOf frame stay s (events ++ event ∷ []) }
{}

/// A stay has one frame at most.
pub fn one_frame()
    ensures { (s : Scene) (events : List AnEvent) (stay : Stay) (q p : Raster) →
        IsFrameOf q stay s events → IsFrameOf p stay s events → q ≡ p }
{}

/// Where all that was sent is of one sender's list, each cell of a stay's frame is missing or the
/// value there of the sender's picture of that timestamp; and it is missing exactly where no
/// datagram that reached the stay carries the position.
pub fn senders_frames()
    ensures { (s : Scene) (sender : Sender) (pictures : List Values) (events : List AnEvent)
        (stay : Stay) (frame : Raster) →
        IsOfSender s sender pictures → IsFrameOf frame stay s events →
        IsSendersFrame frame stay sender pictures s events }
{}

/// At most one event is the first that is not admitted, and none is where all are.
pub fn first_bad()
    ensures one { (s : Scene) (events : List AnEvent) (p q : ℕ) →
        IsFirstBad p s events → IsFirstBad q s events → p ≡ q }
    ensures none { (s : Scene) (events : List AnEvent) (p : ℕ) →
        AreAdmittedTo events s (length events) → IsFirstBad p s events → ⊥ }
{}

/// Whatever events are admitted, each receiver has a state after them, so each stay that lasts has
/// a frame: the definitions leave none out. A stay that has ended lasted before, and keeps its
/// frame.
pub fn every_schedule()
    ensures { (s : Scene) (events : List AnEvent) → IsSchedule events s →
        (r : ℕ) → (state : State) × IsAt state r s events }
{}
