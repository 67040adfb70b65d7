//! Frames in each state of a run.
ghost use Rattle.covered_runs.specs.touched_runs.called_frames.Laws.{StepLayered, RunsLayered};

/// Each step of the machine keeps how frames stand: below a function that a call entered the call still waits, below one that a library
/// function entered that one is still pending, and a library function that is called back stands on the one that calls it, with pointers
/// into the arrays which that one was given (C11 7.22.5).
pub fn step_layered()
    ensures { StepLayered }
{}

/// So they stand in each state of each run of a program, whatever the words and however many steps.
pub fn runs_layered()
    ensures { RunsLayered }
{}
