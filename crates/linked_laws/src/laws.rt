//! What each program keeps that is linked from valid units (C11 5.1.1.2).
ghost use Rattle.linked_laws.specs.Ranges.{LinkedRange};

/// In a program that is linked from valid units each node and entity that is named is in range, and children come first, if the numbers of
/// types are in range.
pub fn linked_range()
    ensures { LinkedRange }
{}
