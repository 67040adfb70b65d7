//! That an external name has a type that agrees with its entity's.
ghost use Rattle.declaration_laws.specs.declared_type_laws.linked_names.Linked.{ExternalNamesFit};

/// What an external name means at a primary (C11 6.2.2, 6.2.7p4) has a type that agrees with the one of its entity, unless it is an array
/// that waits within its own initialiser for a length which an earlier declaration has.
pub fn external_names_fit()
    ensures { ExternalNamesFit }
{}
