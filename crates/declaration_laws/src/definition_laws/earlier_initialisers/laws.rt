//! That an initialiser stands before each later declarator.
ghost use Rattle.declaration_laws.specs.definition_laws.earlier_initialisers.Earlier.{InitialisersEarlier};

/// The initialiser of a declarator stands before each declarator of a declaration that comes behind that one (C11 6.7): no declaration
/// stands within an initialiser.
pub fn initialisers_earlier()
    ensures { InitialisersEarlier }
{}
