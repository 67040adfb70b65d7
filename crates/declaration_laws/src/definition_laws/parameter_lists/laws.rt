//! The law: a function that does nothing, whose contract it is.
ghost use Rattle.declaration_laws.specs.definition_laws.parameter_lists.Parameters.{UnitsList};

/// In the tree of a unit that is read each parameter is a part of a list that begins with a parenthesis (C11 6.7.6.3).
pub fn parameters_listed()
    ensures { UnitsList }
{}
