//! The law: a function that does nothing, whose contract it is.
ghost use Rattle.valid_unit_laws.specs.body_node_laws.own_initials.Own.{UnitsInitialiseOwn};

/// In a parsed unit whose rows all fit, the initialiser of an automatic object stands in the body of a function, and whatever initialises
/// that object in the body of anything is that initialiser (C11 6.7.9, 6.8).
pub fn units_initialise_own()
    ensures { UnitsInitialiseOwn }
{}
