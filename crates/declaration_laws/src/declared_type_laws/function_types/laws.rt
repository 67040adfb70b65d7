//! That a name which is declared as a function has a function's type, or one that a specifier names.
ghost use Rattle.declaration_laws.specs.declared_type_laws.function_types.Typed.{FunctionsGiven};

/// A name that is declared as a function, not as a typedef name, has a function's type; or the type that a name among its specifiers
/// means, or that a structure, union or enumeration specifier among them gives (C11 6.7.6.3, 6.7.8).
pub fn functions_given()
    ensures { FunctionsGiven }
{}
