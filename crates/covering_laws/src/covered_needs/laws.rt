//! What calls of library functions find (C11 7.22.3, 7.5, 7.4).
ghost use Rattle.covering_laws.specs.covered_needs.Needs.{ArgumentMet, CallsAreMade, FreshIsMet, GroundsGrow, LibraryMade};
ghost use Rattle.covering_laws.specs.covered_needs.Needs.{NamesAreMet, TextIsMet};

/// What a program's system stands on stays so over the table with more types.
pub fn grounds_grow()
    ensures { GroundsGrow }
{}

/// Each library object of a program's locations is made as its row says.
pub fn library_made()
    ensures { LibraryMade }
{}

/// In a covered memory the library object that a function's row names is where the row says, and it is one that the call gets.
pub fn names_met()
    ensures { NamesAreMet }
{}

/// Each object of a direct call is made as the call's function says, and each direct call of an allocating function has one.
pub fn calls_are_made()
    ensures { CallsAreMade }
{}

/// What a direct call of malloc, calloc or realloc makes is the call's own object, which has no type yet.
pub fn fresh_met()
    ensures { FreshIsMet }
{}

/// A pointer that is given to a library function is covered as its argument.
pub fn argument_met()
    ensures { ArgumentMet }
{}

/// What a direct call of strdup makes is the call's own object, of characters.
pub fn text_met()
    ensures { TextIsMet }
{}
