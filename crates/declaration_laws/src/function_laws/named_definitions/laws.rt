//! That the block of a function stands in the definition of its name.
ghost use Rattle.declaration_laws.specs.function_laws.named_definitions.Named.{DefinitionsAreNamed};

/// The function around the block of an entity's definition is that entity (C11 6.9.1).
pub fn definitions_named()
    ensures { DefinitionsAreNamed }
{}
