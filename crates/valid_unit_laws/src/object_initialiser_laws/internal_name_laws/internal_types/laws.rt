//! Which type the entity of an internal name has.
ghost use Rattle.valid_unit_laws.specs.object_initialiser_laws.internal_name_laws.internal_types.Internal.{EntityTypesKnown, InitialisedInternals};

/// In a unit whose rows all fit, the entity of an internal name has the type that all its declarations give together (C11 6.2.7p4), where
/// an array that has a length in none of them gets one element (6.9.2p2); or the type of its definition, if that is one of a function.
pub fn entity_types_known()
    ensures { EntityTypesKnown }
{}

/// At the initialiser of an internal object (C11 6.7.9) its entity's type is the one that the declarator gives it, with the length that
/// was seen of an array's name before (6.2.7p4), or else the initialiser gives it.
pub fn internals_initialised()
    ensures { InitialisedInternals }
{}
