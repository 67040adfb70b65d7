//! That internal functions are known by their definitions, and what follows for owners.
ghost use Rattle.declaration_laws.specs.declared_type_laws.owner_laws.internal_laws.Internals.{DefinitionsKnown, OwnersKnown};

/// An internal name that is defined as a function is known by that definition: no other declaration of it defines it (C11 6.9p3).
pub fn definitions_known()
    ensures { DefinitionsKnown }
{}

/// In a unit that is built of a text's senses an automatic object and a parameter have an owner, and each owner is a function (C11 6.2.4,
/// 6.9.1).
pub fn owners_known()
    ensures { OwnersKnown }
{}
