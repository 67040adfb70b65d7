//! Library functions that are called, and what they do (C11 7.1.4, 7.22.3, 7.22.4, 7.22.5, 7.24).
ghost use Rattle.covered_runs.specs.covered_steps.covered_effects.Steps.{ReachedCovered, StepsBacked, StepsEffected, StepsKept, StepsPended};
ghost use Rattle.covered_runs.specs.covered_steps.covered_effects.Traces.{EffectsTraced};

/// The effect of a library function goes on as its row may, and adds at most the object of its call to the memory.
pub fn effects_traced()
    ensures { EffectsTraced }
{}

/// The function that a call reaches is among the call's targets, of the call's type, and its arguments are covered (6.5.2.2).
pub fn reached_covered()
    ensures { ReachedCovered }
{}

/// The step in which a call waits for the library function that it reaches leaves the state covered.
pub fn steps_pended()
    ensures { StepsPended }
{}

/// The effect of a pending call leaves the state covered: where the call is done, takes another turn, calls a function back, keeps one or
/// ends the program.
pub fn steps_effected()
    ensures { StepsEffected }
{}

/// The step that calls the function that was kept last, at the program's end, leaves the state covered (7.22.4.2).
pub fn steps_kept()
    ensures { StepsKept }
{}

/// So does the effect of a library function that another one called back.
pub fn steps_backed()
    ensures { StepsBacked }
{}
