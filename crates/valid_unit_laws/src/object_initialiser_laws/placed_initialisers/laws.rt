//! The law: a function that does nothing, whose contract it is.
ghost use Rattle.valid_unit_laws.specs.object_initialiser_laws.placed_initialisers.Placed.{UnitsPlace};

/// In a unit that is cut into tokens and read, what initialises an outermost declarator is an initialiser in the rest of a declaration, and
/// that declarator is one of an object or function (C11 6.7, 6.7.9).
pub fn initialisers_placed()
    ensures { UnitsPlace }
{}
