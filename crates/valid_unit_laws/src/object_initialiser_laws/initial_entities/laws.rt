//! That each initialiser of an object initialises the entity of its declarator's name.
ghost use Rattle.valid_unit_laws.specs.object_initialiser_laws.initial_entities.Own.{InitialisersOwn};

/// An object's initialiser has a sense, whose core initialises the entity, as it is at the end, of the name of the declarator whose
/// initialiser it is (C11 6.7.9).
pub fn initialisers_own()
    ensures { InitialisersOwn }
{}
