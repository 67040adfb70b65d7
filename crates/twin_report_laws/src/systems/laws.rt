//! That systems which are one, but for numbers, have one least solution (Andersen 1994, chapter 4).
ghost use Rattle.twin_report_laws.specs.systems.Systems.{LeadsToItself, ClosedThere, OneSolution, OneText};

/// A system leads to itself, under its own numbers.
pub fn leads_to_itself()
    ensures { LeadsToItself }
{}

/// Where a valid system leads to another one, each family that is closed for the other is closed for it, seen through the numbers.
pub fn closed_there()
    ensures { ClosedThere }
{}

/// Where two valid systems lead to each other, each fact of the least solution of the first is one of the second's, under the other
/// numbers; and they say the same to each question whose numbers lead back.
pub fn one_solution()
    ensures { OneSolution }
{}

/// The answers of two such systems to the same questions, but for numbers, are one text.
pub fn one_text()
    ensures { OneText }
{}
