//! The library's names and objects in the world of a linked program (C11 7.1.4, 7.22.3).
ghost use Rattle.covered_runs.specs.covered_programs.served_worlds.Serving.{WorldsServed};
ghost use Rattle.covered_runs.specs.covered_programs.served_worlds.Stored.{FunctionsStored};

/// The world of a linked program with the least solution of its system has what calls of library functions take of it: the types of the
/// functions, what the objects of the library, of calls and of functions are made of, and that only calls by name, or those of functions
/// which the program has as values, give new objects.
pub fn worlds_served()
    ensures { WorldsServed }
{}

/// A program that is linked from units whose functions have their bodies or are only declared (6.2.4p1, 6.7p1) stores its functions so: no
/// automatic object is a function, and a unit's function without a body is only declared.
pub fn functions_stored()
    ensures { FunctionsStored }
{}
