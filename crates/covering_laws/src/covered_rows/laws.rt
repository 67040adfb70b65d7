//! Values and places of nodes that sets cover (Andersen 1994).
ghost use Rattle.covering_laws.specs.covered_rows.Laws.{
  ArgumentsCovered,
  AssignsCovered,
  FetchesCovered,
  FurtherCovered,
  NextArgsCovered,
  ResultsCovered,
  ReturnsCovered,
  SequencesCovered,
  TargetsCovered,
  VarArgsCovered,
};

/// What is fetched from a covered place is covered at the node.
pub fn fetches_covered()
    ensures { FetchesCovered }
{}

/// An assignment leaves the memory covered, and its value is covered at the node.
pub fn assigns_covered()
    ensures { AssignsCovered }
{}

/// The value of a sequence is covered at it.
pub fn sequences_covered()
    ensures { SequencesCovered }
{}

/// An argument is covered in the object of its parameter.
pub fn arguments_covered()
    ensures { ArgumentsCovered }
{}

/// The list of what an activation was passed past its parameters is covered at its node (C11 7.16.1.4).
pub fn varargs_covered()
    ensures { VarArgsCovered }
{}

/// A pointer that a list gives is covered at the node that takes it (C11 7.16.1.1).
pub fn next_args_covered()
    ensures { NextArgsCovered }
{}

/// An argument past the parameters of a variadic function is covered in the object of all that (C11 6.5.2.2p7, 7.16).
pub fn further_covered()
    ensures { FurtherCovered }
{}

/// What a function returns is covered at the call.
pub fn results_covered()
    ensures { ResultsCovered }
{}

/// A returned value is covered in the result rows of the function around it.
pub fn returns_covered()
    ensures { ReturnsCovered }
{}

/// A function that a covered callee is, of the type of the call, is among the call's targets.
pub fn targets_covered()
    ensures { TargetsCovered }
{}
