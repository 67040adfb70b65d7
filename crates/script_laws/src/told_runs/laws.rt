//! Reports and runs (C11 5.1.2.3; Andersen 1994).
ghost use Rattle.script_laws.specs.told_runs.Lines.{LinesHold};
ghost use Rattle.script_laws.specs.told_runs.Texts.{StoresWithinSets, TargetsWithinSets};

/// Of each state of each run of a program, whatever the words and however many steps, on the report of the least solution of its system:
/// each pointer that isn't null and each function that a cell of memory holds is named on the `set` line of the cell's location, which is
/// there; each that the last step put into a cell, a `store` of the text of a run, is in the set of that cell's location; each function
/// that a call reached through a pointer, or entered, is a target of that call, and named on its `call` line where the call doesn't name
/// its function; and each function that a library function entered stands behind an `edge` from that.
pub fn lines_hold()
    ensures { LinesHold }
{}

/// The `store` line that the text of a run has of each pointer that isn't null, and each function, which a step puts into a cell names two
/// locations of the program, so no `?` stands there, and the second is a member of the first one's set in the least solution.
pub fn stores_within_sets()
    ensures { StoresWithinSets }
{}

/// The `target` line that the text of a run has of a call through a pointer names one of the call's targets in the least solution.
pub fn targets_within_sets()
    ensures { TargetsWithinSets }
{}
