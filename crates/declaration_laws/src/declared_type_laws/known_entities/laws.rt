//! That a name's entity is known from its declarator on.
ghost use Rattle.declaration_laws.specs.declared_type_laws.known_entities.Entities.{EntitiesKnown};
ghost use Rattle.declaration_laws.specs.declared_type_laws.known_entities.Further.{FurtherFound};

/// Whether a name is internal, and which entity it has, is the same from its outermost declarator on as it is at the end: no later sense
/// says anything about it (C11 6.2.2).
pub fn entities_known()
    ensures { EntitiesKnown }
{}

/// A function that is found for the name of its last parameter is the one in whose definition that name stands: a variadic one, whose name
/// is declared before (C11 7.16.1.4).
pub fn further_found()
    ensures { FurtherFound }
{}
