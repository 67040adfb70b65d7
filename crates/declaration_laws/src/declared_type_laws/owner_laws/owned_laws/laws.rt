//! That what is declared within functions has them as owners.
ghost use Rattle.declaration_laws.specs.declared_type_laws.owner_laws.owned_laws.Owned.{OwnersStand};

/// In a unit that is built of a text's senses an automatic object and a parameter have an owner, and each owner is a function (C11 6.2.4,
/// 6.9.1), where internal functions that are defined are known by their definitions.
pub fn owners_stand()
    ensures { OwnersStand }
{}
