//! That what is known of earlier declarations of a name at a declarator is what is known of them in the end.
ghost use Rattle.declaration_laws.specs.declared_type_laws.declared_once.Once.{DeclaredOnce};

/// At the declarator of a name with linkage (C11 6.2.2) it is known whether the name is internal, which of the declarations before it are
/// internal ones of that name, and which types they give it, as it is in the end.
pub fn declared_once()
    ensures { DeclaredOnce }
{}
