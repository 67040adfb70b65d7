//! The laws: functions that do nothing, whose contracts they are.
ghost use Rattle.declaration_laws.specs.definition_laws.scope_laws.Scoped.{UsesStay, NamesDeclaredOnce, LinkedAreNames};

/// What stands below an external declaration and uses a name that has no linkage, as a local object or a parameter, uses one that is
/// declared below it (C11 6.2.1).
pub fn uses_stay()
    ensures { UsesStay }
{}

/// Each leaf declares one ordinary name at most, and no tag beside it.
pub fn names_declared_once()
    ensures { NamesDeclaredOnce }
{}

/// What is declared with linkage is the leaf of an identifier.
pub fn linked_names()
    ensures { LinkedAreNames }
{}
