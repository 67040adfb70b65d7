//! What a linked program begins at (C11 5.1.2.2.1).
ghost use Rattle.linked_laws.specs.main_laws.Located.{BodiesBegin, BodiesLocated, StartLocated, LinkedEntries};

/// A program with a function that has a body has a location.
pub fn bodies_located()
    ensures { BodiesLocated }
{}

/// The object of a function that has a body has a first location.
pub fn bodies_begin()
    ensures { BodiesBegin }
{}

/// A program that is linked from valid units has a location: that of `main`, or of its first entry.
pub fn start_located()
    ensures { StartLocated }
{}

/// The entries of a program that is linked from valid units are functions of external linkage with bodies, of integers and pointers
/// alone; and it has
/// none exactly where none are named.
pub fn linked_entries()
    ensures { LinkedEntries }
{}
