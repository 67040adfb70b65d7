//! Functions of the library that give new objects (C11 7.22.3).
ghost use Rattle.covered_runs.specs.covered_programs.allocation_laws.Spread.{AllocatorsSpread, ObjectsSpaced};

/// The locations of a program's objects: those of a structure stand behind each other, and each function of the library is one location,
/// behind those of the objects that tokens make (6.2.5p20, 6.7.2.1p15).
pub fn objects_spaced()
    ensures { ObjectsSpaced }
{}

/// A call that reaches a function which gives new objects calls it by its name, or the program has that function as a value (6.5.2.2p1).
pub fn allocators_spread()
    ensures { AllocatorsSpread }
{}
