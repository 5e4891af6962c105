//! A law on reports. The function does nothing: its contract is the law.
ghost use Rattle.std.specs.Prelude.{ℕ};
ghost use Rattle.st_format.specs.Raster.{Raster};
ghost use Rattle.packet_numbers.specs.Numbers.{AreMissingRuns};
ghost use Rattle.frame_assembly.specs.Missing.{known_groups, missing_runs_in};

/// The runs that a report tells of a row are the maximal runs of its missing pgroups, no other
/// and each once, from the left.
pub fn missing_runs_are_maximal()
    ensures { (r : Raster) (row : ℕ)
        → AreMissingRuns (known_groups r row) (missing_runs_in r row) }
{}
