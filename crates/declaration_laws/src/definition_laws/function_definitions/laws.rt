//! That the name of a definition declares a function.
ghost use Rattle.declaration_laws.specs.definition_laws.function_definitions.Defined.{DefinitionsDeclare};

/// An external declaration with a block has a name, which it declares as a function, with linkage and of a function's type (C11 6.9.1).
pub fn definitions_declare()
    ensures { DefinitionsDeclare }
{}
