//! What functions may touch covers the runs of linked programs.
ghost use Rattle.covered_runs.specs.touched_runs.Touched.{StepsTouch};
ghost use Rattle.covered_runs.specs.touched_runs.Runs.{TouchCoversRuns, CellsHaveSpots};

/// The location of each cell that a step of the machine reads or writes, from a state that the sets cover, stands in the set of the
/// function of each frame on the stack: of the function around the node, and of all that wait for it (C11 6.5.2.2, 7.22.5).
pub fn steps_touch()
    ensures { StepsTouch }
{}

/// For every run of a linked program, whatever the words and however many steps: the location of each cell that a step reads or writes
/// stands in what `mod_ref::effects` says that the function of each frame on the stack may read or write.
pub fn touch_covers_runs()
    ensures { TouchCoversRuns }
{}

/// For every run of a linked program, whatever the words and however many steps: each cell of each object that there is has a location, so
/// `touch_covers_runs` leaves no cell out.
pub fn cells_have_spots()
    ensures { CellsHaveSpots }
{}
