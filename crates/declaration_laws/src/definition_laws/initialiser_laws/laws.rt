//! That a declarator's initialiser is found to be its.
ghost use Rattle.declaration_laws.specs.definition_laws.initialiser_laws.Initialisers.{InitialisersFound};

/// The initialiser that stands behind a declarator, or begins the rest of its declaration, is an initialiser of that declarator (C11 6.7).
pub fn initialisers_found()
    ensures { InitialisersFound }
{}
