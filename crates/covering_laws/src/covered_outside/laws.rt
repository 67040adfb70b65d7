//! What passes between a program and what lies outside it.
ghost use Rattle.covering_laws.specs.covered_outside.Laws.{EntriesGive, EntriesTake, OutsideCovered, OutsidePoints};

/// New memory from outside is covered.
pub fn outside_covered()
    ensures { OutsideCovered }
{}

/// A pointer to memory from outside is in the row of what lies outside.
pub fn outside_points()
    ensures { OutsidePoints }
{}

/// What is in the row of what lies outside is covered in each parameter of a function at which the program is entered.
pub fn entries_take()
    ensures { EntriesTake }
{}

/// What a function gives at which the program is entered is in the row of what lies outside.
pub fn entries_give()
    ensures { EntriesGive }
{}
