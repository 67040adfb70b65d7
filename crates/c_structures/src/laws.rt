//! What is kept of lists of members stays right: this function does nothing, and its contract is the law.
ghost use Rattle.c_structures.specs.Kept.{ListsKept};

/// What is kept of lists of members is right also where more has been made.
pub fn lists_kept()
    ensures { ListsKept }
{}
