//! That no two initialisers are of one declarator.
ghost use Rattle.declaration_laws.specs.definition_laws.single_initialisers.Single.{InitialisersApart};

/// In a unit that is read no two initialisers are of one declarator (C11 6.7): each declarator of a declaration has one at most.
pub fn initialisers_apart()
    ensures { InitialisersApart }
{}
