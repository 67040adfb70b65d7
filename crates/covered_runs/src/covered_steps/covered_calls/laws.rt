//! Parameters that get their arguments (C11 6.5.2.2p4, 6.9.1p10).
ghost use Rattle.covered_runs.specs.covered_steps.covered_calls.Activations.{ActivationsCovered};
ghost use Rattle.covered_runs.specs.covered_steps.covered_calls.Entering.{ArgumentsHeld, StepsCalled};
ghost use Rattle.covered_runs.specs.covered_steps.covered_calls.Results.{ResultsGiven, StepsGiven, StepsHanded};

/// The objects of a function's parameters and of what it is passed past these, with the arguments of a call that reaches it, are covered
/// beside the memory, and none waits for its type (C11 6.5.2.2, 7.16).
pub fn activations_covered()
    ensures { ActivationsCovered }
{}

/// What a function returns is covered at the call that reached it.
pub fn results_given()
    ensures { ResultsGiven }
{}

/// The step that leaves the frame of a called function leaves the state covered (6.8.6.4p3).
pub fn steps_given()
    ensures { StepsGiven }
{}

/// The step that leaves the frame of a function at which the program is entered leaves the state covered, and what the function gives,
/// which
/// is handed over, in the row of what lies outside.
pub fn steps_handed()
    ensures { StepsHanded }
{}

/// The values of a call's operands are covered as its arguments.
pub fn arguments_held()
    ensures { ArgumentsHeld }
{}

/// The step in which a call enters a function leaves the state covered (6.5.2.2p4).
pub fn steps_called()
    ensures { StepsCalled }
{}
