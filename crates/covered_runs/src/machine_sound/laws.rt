//! What holds of each state of a run (C11 5.1.2.3).
ghost use Rattle.covered_runs.specs.machine_sound.Carried.{StepSound, RunSound};
ghost use Rattle.covered_runs.specs.machine_sound.Scenes.{EveryRunIsCovered};

/// Each step of the machine that goes on, from a state that the sets cover, leads to a state that they cover: a node is begun or goes on,
/// a call enters a function or waits for one of the library, the library's effect is done, calls back, keeps a function or ends the
/// program, a frame is left, what an entry gives goes outside, a kept function is called at the end, and the program begins at main or is
/// entered from outside (5.1.2.2, 6.5, 6.8, 7.22.4).
pub fn step_sound()
    ensures { StepSound }
{}

/// Each state of a run from a state that the sets cover is covered, whatever the words and however many steps.
pub fn run_sound()
    ensures { RunSound }
{}

/// Each state of each run of a program is covered by the sets of each family that is closed for the program's system.
pub fn every_run_is_covered()
    ensures { EveryRunIsCovered }
{}
