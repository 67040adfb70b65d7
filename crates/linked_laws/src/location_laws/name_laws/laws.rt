//! Names of locations.
ghost use Rattle.linked_laws.specs.location_laws.name_laws.Named.{NamesDistinct};

/// The locations of a program have distinct names, where its units' names differ, its parts are told apart by their names
/// and places (C11 6.2.1, 6.2.2, 6.7.2.1), and the names are identifiers.
pub fn names_distinct()
    ensures { NamesDistinct }
{}
