//! What `covers` decides is what it means that sets cover a state, steps keep no less, and so each state of each run is accepted for the
//! least sets: these functions do nothing, and their contracts are the laws.
ghost use Rattle.machine_covers.specs.Covers.{CoveredIsCovered};
ghost use Rattle.machine_covers.specs.Exact.{ArgumentsExact, MemoryExact, ValuesExact};
ghost use Rattle.machine_covers.specs.Runs.{RunsAccepted};
ghost use Rattle.machine_covers.specs.Whole.{CoversExact, StateExact};

/// Each state that the invariant of steps holds of is one that is covered.
pub fn covered_is_covered()
    ensures { CoveredIsCovered }
{}

/// A memory is accepted exactly where each instance is of its object and type, and what its cells point to is in their rows.
pub fn memory_exact()
    ensures { MemoryExact }
{}

/// A node's value is accepted exactly where what it points to is in the node's rows.
pub fn values_exact()
    ensures { ValuesExact }
{}

/// The arguments of a library function that is called back are accepted exactly where what they point to is there.
pub fn arguments_exact()
    ensures { ArgumentsExact }
{}

/// A state is accepted exactly where the sets cover it, in each world with a valid system.
pub fn state_exact()
    ensures { StateExact }
{}

/// The state of a program's machine is accepted exactly where the sets cover it.
pub fn covers_exact()
    ensures { CoversExact }
{}

/// The least sets of a program that is linked from units are accepted on each state of each of its runs, whatever the words and however
/// many steps.
pub fn runs_accepted()
    ensures { RunsAccepted }
{}
