//! That uses of external names have the types of their declarations.
ghost use Rattle.declaration_laws.specs.declared_type_laws.declared_uses.Uses.{UsesAreDeclared};

/// In a unit that is built of a text's senses each use of an entity with external linkage has the type of some external declaration of its
/// name, or of an array that lacks the length alone that such a declaration has (C11 6.2.2, 6.2.7p4, 6.7.9p22).
pub fn uses_declared()
    ensures { UsesAreDeclared }
{}
