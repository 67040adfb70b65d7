//! Steps that begin a node and steps that go on with one (C11 6.5, 6.7.9, 6.8).
ghost use Rattle.covered_runs.specs.covered_steps.covered_statements.Founded.{RunnableMet};
ghost use Rattle.covered_runs.specs.covered_steps.covered_statements.Rows.{BegunSteady, CallsSteady, LeavesSteady, WaitsSteady};

/// The step that begins a node keeps what sets cover, and the items stacked: an expression waits for its operands or is computed, a
/// statement enters its block, a jump goes where it goes (6.5, 6.8).
pub fn begun_steady()
    ensures { BegunSteady }
{}

/// So does a step of a node that waits: it takes an operand, or has them all and is computed, initialises an object, goes on to a part of
/// it, or returns (6.5, 6.7.9, 6.8).
pub fn waits_steady()
    ensures { WaitsSteady }
{}

/// So does the one that leaves a frame: to the call that entered it, to the library function that called it, or at the program's end
/// (5.1.2.2.3, 6.8.6.4, 6.9.1p12).
pub fn leaves_steady()
    ensures { LeavesSteady }
{}

/// What these steps stand on is there for each linked program whose automatic objects are no functions, over the machine's types.
pub fn runnable_met()
    ensures { RunnableMet }
{}

/// So does the one in which a call, whose operands are all there, enters a function with a body (6.5.2.2, 6.9.1p10).
pub fn calls_steady()
    ensures { CallsSteady }
{}
