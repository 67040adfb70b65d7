//! That the type of a parameter has a size.
ghost use Rattle.valid_unit_laws.specs.object_size_laws.parameter_sizes.Parameters.{ParametersSized};

/// In a unit that is built of a text, the type of a parameter of a definition (C11 6.7.6.3p4) has a size and a number of nodes, or it is a
/// structure or union that is complete at the unit's end.
pub fn parameters_sized()
    ensures { ParametersSized }
{}
