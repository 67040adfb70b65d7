//! The runs of linked programs (C11 5.1.1.1, 5.1.2.3).
ghost use Rattle.covered_runs.specs.covered_programs.Programs.{ProgramsCovered};

/// Each state of each run of a program that is linked from units is covered by the least sets of the program's system: what memory and
/// items point to, each pointer that a step stores and each function that it reaches stands in them.
pub fn programs_covered()
    ensures { ProgramsCovered }
{}
