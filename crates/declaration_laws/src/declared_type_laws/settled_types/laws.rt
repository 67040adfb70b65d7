//! That a declaration's own type is settled at each later declarator.
ghost use Rattle.declaration_laws.specs.declared_type_laws.settled_types.Settled.{TypesSettled};

/// Behind a later declarator of a declaration (C11 6.7), the type that a declaration gives its name is the one that it gives in the end:
/// its initialiser, which may give an array its length (6.7.9p22), stands before that declarator.
pub fn types_settled()
    ensures { TypesSettled }
{}
