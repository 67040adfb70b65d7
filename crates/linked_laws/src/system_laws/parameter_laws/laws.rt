//! That the rows of parameters are rows of the system (Pearce, Kelly and Hankin 2007).
ghost use Rattle.linked_laws.specs.system_laws.parameter_laws.Fitting.{ParametersFit, TypedDecide};

/// Each node of a parameter is a location, so its row is one of the rows.
pub fn parameters_fit()
    ensures { ParametersFit }
{}

/// A system of a program with a function that has a body, and whose calls are of values, is valid, if its types and constraints are.
pub fn typed_decide()
    ensures { TypedDecide }
{}
