//! Names of locations of programs that are linked from units.
ghost use Rattle.linked_laws.specs.location_laws.named_laws.Units.{LinkedNames, LinkedDistinct};
ghost use Rattle.linked_laws.specs.location_laws.named_laws.Whole.{LinkedWhole};

/// The parts of a program that is linked from units are told apart by names and places where those of each unit are.
pub fn linked_names()
    ensures { LinkedNames }
{}

/// The locations of a program that is linked from such units have distinct names.
pub fn linked_distinct()
    ensures { LinkedDistinct }
{}

/// Such a program is whole: no two external entities and no two locations have one name, each used entity is defined or a
/// name of the library's, and where it has no entries, `main` is defined (C11 6.9p5, 5.1.2.2.1).
pub fn linked_whole()
    ensures { LinkedWhole }
{}
