//! The law: a function that does nothing, whose contract it is.
ghost use Rattle.core_node_laws.specs.built_unit_laws.parameter_bodies.Bare.{ParametersBare};

/// In a unit that is made of a tree's senses no parameter has a body, since nothing initialises one (C11 6.7.6.3).
pub fn parameters_bare()
    ensures { ParametersBare }
{}
