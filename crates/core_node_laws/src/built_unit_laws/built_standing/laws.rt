//! The laws: functions that do nothing, whose contracts they are.
ghost use Rattle.core_node_laws.specs.built_unit_laws.built_standing.Built.{ParametersBuilt, StatementsBuilt};

/// In a unit that is built from a text that is cut into tokens and read, each statement stands in the body of a function: a `break`
/// in a loop or a switch of it, a `continue` in a loop, a `case` and a `default` in a switch (C11 6.8.1, 6.8.6).
pub fn statements_built()
    ensures { StatementsBuilt }
{}

/// In such a unit no parameter has a body (C11 6.7.6.3).
pub fn parameters_built()
    ensures { ParametersBuilt }
{}
