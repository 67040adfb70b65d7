//! That a name which declares a function has a parameter list or a function's type.
ghost use Rattle.declaration_laws.specs.definition_laws.function_origins.Origins.{FunctionsCome};

/// What is declared as a function has a declarator with a parameter list next to the name (C11 6.7.6.3), or one that derives nothing
/// behind a type name that is itself declared so.
pub fn functions_come()
    ensures { FunctionsCome }
{}
