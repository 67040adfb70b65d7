//! The objects that live for the whole run, the values of static initialisers, and the words of the start.
ghost use Rattle.covered_runs.specs.machine_sound.covered_start.Arguments.{TextsCovered, ListsCovered};
ghost use Rattle.covered_runs.specs.machine_sound.covered_start.Fixed.{FixedCovered};
ghost use Rattle.covered_runs.specs.machine_sound.covered_start.Objects.{ObjectsCovered, ObjectsTake};
ghost use Rattle.covered_runs.specs.machine_sound.covered_start.Start.{BeginSteady, StartSteady};

/// The objects that live for the whole run are covered, before any initialiser (C11 5.1.2, 6.7.9p10).
pub fn objects_covered()
    ensures { ObjectsCovered }
{}

/// No object at the start waits for the type of a conversion.
pub fn objects_take()
    ensures { ObjectsTake }
{}

/// The fixed values of the initialisers of static objects are covered at their nodes (6.6, 6.7.9p4).
pub fn fixed_covered()
    ensures { FixedCovered }
{}

/// The texts of main's arguments are covered (5.1.2.2.1p2).
pub fn texts_covered()
    ensures { TextsCovered }
{}

/// `<argv>`, which points to them, leaves the memory covered.
pub fn lists_covered()
    ensures { ListsCovered }
{}

/// The state in which a run starts is covered: each object that lives for the whole run, with its initialiser (6.7.9p10).
pub fn start_steady()
    ensures { StartSteady }
{}

/// So is the state after a step without a frame of a program that isn't at its end: it enters main, with arguments where it has parameters
/// (5.1.2.2.1), or one of the program's entries, with what a word chooses, or it ends the program.
pub fn begin_steady()
    ensures { BeginSteady }
{}
