//! That the body of a named object is its own Initialise.
ghost use Rattle.valid_unit_laws.specs.object_initialiser_laws.object_bodies.Objects.{NamedObjectsInitialise};

/// In a unit that is built of a text's senses, whose initialisers stand where the grammar puts them, the body of a name that
/// isn't a function that is defined is an Initialise of its own entity (C11 6.7.9).
pub fn named_objects_initialise()
    ensures { NamedObjectsInitialise }
{}
