//! Covered memories (Andersen 1994; Pearce, Kelly and Hankin 2007).
ghost use Rattle.covering_laws.specs.covered_memory.Laws.{ReadsCovered, WritesCovered, EndsCovered, SystemsGrounded};

/// A read at a covered place gives a covered value.
pub fn reads_covered()
    ensures { ReadsCovered }
{}

/// A write of a covered value at a covered place leaves the memory covered.
pub fn writes_covered()
    ensures { WritesCovered }
{}

/// An instance that ends leaves the memory covered.
pub fn ends_covered()
    ensures { EndsCovered }
{}

/// The facts of a program's system are those of its types and locations.
pub fn systems_grounded()
    ensures { SystemsGrounded }
{}
