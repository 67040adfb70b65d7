//! Values of nodes over a covered memory (C11 6.5; Andersen 1994).
ghost use Rattle.covered_runs.specs.covered_steps.covered_values.Bare.{NothingBare};
ghost use Rattle.covered_runs.specs.covered_steps.covered_values.Met.{AboveMet, StandsMet};
ghost use Rattle.covered_runs.specs.covered_steps.covered_values.Passed.{ChoicesCovered, ReturnsPassed, TypesAwaited};
ghost use Rattle.covered_runs.specs.covered_steps.covered_values.Values.{NextsCovered, ValuesCovered};

/// What a place or a value computes from covered operands in a covered memory is covered at its node, leaves the memory covered, and the
/// pointers that
/// it puts into cells are covered there.
pub fn values_covered()
    ensures { ValuesCovered }
{}

/// The next argument of a list at a covered place is covered at its node, and so is the list behind it at the place (7.16.1.1).
pub fn nexts_covered()
    ensures { NextsCovered }
{}

/// The value of the branch that is taken is covered at its choice (6.5.15).
pub fn choices_covered()
    ensures { ChoicesCovered }
{}

/// A returned value is covered in its function's result (6.8.6.4).
pub fn returns_passed()
    ensures { ReturnsPassed }
{}

/// The type that a conversion gives an object of the library's allocation is the one of its elements (6.5p6).
pub fn types_awaited()
    ensures { TypesAwaited }
{}

/// Programs that are valid and sets that are closed are all that these laws stand on, but for the locations of functions that are named or
/// at which the program is entered.
pub fn stands_met()
    ensures { StandsMet }
{}

/// What calls allocate has the types of the conversions above the calls.
pub fn above_met()
    ensures { AboveMet }
{}

/// Once a node has computed, no object waits for its type.
pub fn nothing_bare()
    ensures { NothingBare }
{}
