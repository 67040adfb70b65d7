//! What more types leave as it was (C11 6.2.5).
ghost use Rattle.covering_laws.specs.grown_programs.Grown.{SystemsGrow, TablesGrow};

/// Types that are added behind those of a table, none of which is a structure, a union or a function, change no type and no size of it.
pub fn tables_grow()
    ensures { TablesGrow }
{}

/// The system of a program is a system of the program with such types added.
pub fn systems_grow()
    ensures { SystemsGrow }
{}
