//! That programs that are linked from valid units are valid (C11 5.1.1.2).
ghost use Rattle.linked_laws.specs.valid_laws.Valid.{LinkedValid};

/// A program that is linked from valid units is valid, if each initialiser of a unit is the body of an object that the unit
/// defines, and the numbers of types are in range: each node stands in its row, each node and entity where it may stand, and
/// each object has a size.
pub fn linked_valid()
    ensures { LinkedValid }
{}
