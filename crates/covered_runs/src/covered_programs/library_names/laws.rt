//! Names of the library in linked programs (C11 7.1.4, 6.9p5).
ghost use Rattle.covered_runs.specs.covered_programs.library_names.Names.{FunctionsDefined, LibraryTyped, NamesShaped, NumbersKnown};

/// A library name's number is the place of its row, and from number 55 on the rows are those of objects.
pub fn numbers_known()
    ensures { NumbersKnown }
{}

/// What a linked program declares of a name that is the library's, and defines nowhere, has the library's shape; where a function of the
/// library is used, its type has a parameter list (7.1.4p2).
pub fn names_shaped()
    ensures { NamesShaped }
{}

/// A function that a linked program names has a body, or is one of the library (6.9p5).
pub fn functions_defined()
    ensures { FunctionsDefined }
{}

/// A function of the library that a linked program names has the type of its declarations: of the library's shape, with a parameter list.
pub fn library_typed()
    ensures { LibraryTyped }
{}
