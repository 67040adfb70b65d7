//! That programs which are one, but for numbers, have the same locations (C11 6.2.1, 6.2.4).
ghost use Rattle.twin_report_laws.specs.outcome_laws.twin_locations.Same.{TwinLocations, OneFunction};

/// Programs that are one, but for numbers, on tables that the tables' own functions made and in which each term comes behind its types,
/// have the same locations: each location of one program stands in the other one with the same name, with the same number of its type
/// but for tags, for the same object but for the numbers of entities and nodes, and is collapsed in both or in neither.
pub fn twin_locations()
    ensures { TwinLocations }
{}

/// A function, one that the program defines or one of the library, has one location at most.
pub fn one_function()
    ensures { OneFunction }
{}
