//! That what is initialised in a unit has its place in the program (C11 6.9.2).
ghost use Rattle.linked_laws.specs.system_laws.filled_laws.Filled.{LinkedPlaced};

/// Where each initialiser of valid units is the body of an object that has its place, each initialiser of the program that is linked from
/// them is one of such an object.
pub fn linked_placed()
    ensures { LinkedPlaced }
{}
