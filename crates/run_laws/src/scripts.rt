//! Laws on scripts of `trace` and `rehearse`, over the definitions alone: each is the contract of a
//! function that does nothing. `run_trace` says of a run that it `Traces` its script, and
//! `run_rehearse` that it `Rehearses` one, and so `PlaysSaid` of what was played.
ghost use Rattle.std.specs.Prelude.{◌≡◌, ℕ, List, Some, slice_get};
ghost use Rattle.st_format.specs.Member.{IsMember, SameDatagrams};
ghost use Rattle.st_format.specs.Raster.{Raster};
ghost use Rattle.frame_assembly.specs.Kinds.{counts_of};
ghost use Rattle.path_receiver.specs.Frames.{Holds, State};
ghost use Rattle.path_merge.specs.declared.schedule.played.Handed.{Handed};
ghost use Rattle.path_merge.specs.declared.schedule.played.Played.{Played};
ghost use Rattle.script_engines.specs.Rehearsal.{Said};
ghost use Rattle.script_engines.specs.Rehearsed.{PlaysSaid};
ghost use Rattle.script_engines.specs.Traced.{Traces};
ghost use Rattle.run_laws.specs.Scripts.{EndsWith, HasNoSlide, datagrams_said, first_lines};
ghost use Rattle.run_laws.specs.Scripts.{lines_behind};

use std::alloc::Allocator;

/// What a script without a slide makes: its run ends with the lines of the frames of a receiver
/// (`ended`), which holds the Frames of the script's datagrams (`holds`; SMPTE ST 2022-7).
pub fn traced_frames()
    ensures ended { (script old new : List ℕ) → Traces script old new
        → (last : State) × (lines : List ℕ) × EndsWith script old new last lines }
    ensures holds { (script old new : List ℕ) (last : State) (lines : List ℕ)
        → EndsWith script old new last lines → HasNoSlide (lines_behind script)
        → Holds last (datagrams_said script) }
{}

/// Two scripts without a slide that begin by the same two lines and have the same datagrams, in
/// whatever order, by whatever paths, with whatever repeats, and with whatever questions between
/// them, end with the same frame lines, octet for octet.
pub fn traced_in_any_order()
    ensures { (script other old new old' new' : List ℕ) (last last' : State)
        (lines lines' : List ℕ) → EndsWith script old new last lines
        → EndsWith other old' new' last' lines' → HasNoSlide (lines_behind script)
        → HasNoSlide (lines_behind other) → first_lines script ≡ first_lines other
        → SameDatagrams (datagrams_said script) (datagrams_said other) → lines ≡ lines' }
{}

/// In a rehearsal no sample is contested, whatever the events: not in a frame that was handed out
/// (`handed`), and not in one that a receiver has in the end (`receivers`). So each of its lines
/// says `contested 0`.
pub fn never_contested<A: Allocator>()
    ensures handed { (played : Played A) (said : Said) → PlaysSaid played said
        → (frame : Handed A) → IsMember frame played.handed.items
        → (counts_of frame.frame).contested ≡ 0 }
    ensures receivers { (played : Played A) (said : Said) → PlaysSaid played said
        → (number : ℕ) (receiver : State)
        → slice_get played.receivers.items number ≡ Some receiver
        → (frame : Raster) → IsMember frame receiver.frames → (counts_of frame).contested ≡ 0 }
{}
