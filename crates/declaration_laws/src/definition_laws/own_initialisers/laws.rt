//! That an initialiser is the one of the declarator that it belongs to.
ghost use Rattle.declaration_laws.specs.definition_laws.own_initialisers.Own.{InitialisersStand};

/// An initialiser in the rest of a declaration is the one that is found for its declarator (C11 6.7, 6.7.9): the last declarator before it
/// there, or the declaration's first one.
pub fn initialisers_stand()
    ensures { InitialisersStand }
{}
