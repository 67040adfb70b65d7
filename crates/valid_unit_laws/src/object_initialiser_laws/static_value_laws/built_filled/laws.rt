//! The law: a function that does nothing, whose contract it is.
ghost use Rattle.valid_unit_laws.specs.object_initialiser_laws.static_value_laws.built_filled.Filled.{BuiltAreFilled};

/// A unit that is built of a text initialises only objects that it defines (C11 6.7.9, 6.9.2).
pub fn built_are_filled()
    ensures { BuiltAreFilled }
{}
