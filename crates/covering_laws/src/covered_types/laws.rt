//! Which types are complete (C11 6.2.5, 6.3.2.1), and what calls take and give (6.5.2.2, 6.8.6.4).
ghost use Rattle.covering_laws.specs.covered_types.Calls.{CallsFit};
ghost use Rattle.covering_laws.specs.covered_types.Returns.{ReturnsHeld};
ghost use Rattle.covering_laws.specs.covered_types.Whole.{TypesWhole};

/// In a valid program what a node reads, writes or takes out of a value is of a complete type with few nodes, and the type of each other
/// value is void, such a type, or what a call gives.
pub fn types_whole()
    ensures { TypesWhole }
{}

/// In a valid program what a function with a body gives is of a type that a value may have, and each value that is returned in it has
/// that type.
pub fn returns_held()
    ensures { ReturnsHeld }
{}

/// In a program whose nodes stand in their rows a call calls a pointer to a function. Where the function that it reaches has the type of
/// the call, the call gives what the function gives, and each argument has its parameter's type.
pub fn calls_fit()
    ensures { CallsFit }
{}
