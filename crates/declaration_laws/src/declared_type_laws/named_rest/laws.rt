//! The law: a function that does nothing, whose contract it is.
ghost use Rattle.declaration_laws.specs.declared_type_laws.named_rest.Rest.{NamedWithRest};

/// The parts of what is right for a unit that is cut into tokens and read are told apart by their names and places.
pub fn named_with_rest()
    ensures { NamedWithRest }
{}
