//! What stays covered from step to step.
ghost use Rattle.covering_laws.specs.covered_state.Exists.{CoveredExist};
ghost use Rattle.covering_laws.specs.covered_state.Laws.{FramesStay, HandedStay, NothingAwaited, ValuesSettle};

/// Frames that a step doesn't touch stay covered, whatever it does to memory.
pub fn frames_stay()
    ensures { FramesStay }
{}

/// What was handed over stays covered, whatever a step does to memory.
pub fn handed_stay()
    ensures { HandedStay }
{}

/// The item that takes a covered value is covered.
pub fn values_settle()
    ensures { ValuesSettle }
{}

/// Where a library call is on top, no object waits for the type of the conversion above its call.
pub fn nothing_awaited()
    ensures { NothingAwaited }
{}

/// What the pointers of a covered state name is there: in the cells of memory, in the values that nodes have and in those that wait for a
/// library function or are returned.
pub fn pointers_exist()
    ensures { CoveredExist }
{}
