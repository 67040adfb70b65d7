//! What steps make, end and go on to (C11 6.2.4, 6.8, 6.9.1).
ghost use Rattle.covered_runs.specs.covered_steps.Frames.{BlocksEntered, BlocksLeft, StepsEntered, StepsLeft};
ghost use Rattle.covered_runs.specs.covered_steps.Made.{InstancesEnded, InstancesMade, ParametersCovered, UnsetCovered};
ghost use Rattle.covered_runs.specs.covered_steps.Owned.{OwnersPass};
ghost use Rattle.covered_runs.specs.covered_steps.Placed.{EntitiesPlaced, FunctionsFound};
ghost use Rattle.covered_runs.specs.covered_steps.Steps.{StepsComputed, StepsMoved};

/// Each object and each function of a program has its first location, made of what its declaration says (6.2.4, 6.9.1).
pub fn entities_placed()
    ensures { EntitiesPlaced }
{}

/// A function that is named has a location, where it has a body or is the library's (6.9p5).
pub fn functions_found()
    ensures { FunctionsFound }
{}

/// The children of a node stand in the function in which it stands.
pub fn owners_pass()
    ensures { OwnersPass }
{}

/// Instances that are covered leave the memory covered when they are made behind it.
pub fn instances_made()
    ensures { InstancesMade }
{}

/// Instances that end leave the memory covered (6.2.4p6).
pub fn instances_ended()
    ensures { InstancesEnded }
{}

/// An object of a block is covered when it is made.
pub fn unset_covered()
    ensures { UnsetCovered }
{}

/// A parameter is covered by an argument that is (6.9.1p10).
pub fn parameters_covered()
    ensures { ParametersCovered }
{}

/// A covered memory with covered items of the top frame is a covered state, where no object waits for its type.
pub fn steps_moved()
    ensures { StepsMoved }
{}

/// The step that computes a place or a value leaves the state covered (6.5).
pub fn steps_computed()
    ensures { StepsComputed }
{}

/// Leaving blocks leaves the memory covered (6.2.4p6).
pub fn blocks_left()
    ensures { BlocksLeft }
{}

/// So does entering them, where their objects have their places.
pub fn blocks_entered()
    ensures { BlocksEntered }
{}

/// The step that enters a function leaves the state covered (6.9.1p10).
pub fn steps_entered()
    ensures { StepsEntered }
{}

/// So does the one that leaves a function that a call entered (6.8.6.4p3).
pub fn steps_left()
    ensures { StepsLeft }
{}
