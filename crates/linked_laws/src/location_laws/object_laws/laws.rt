//! Objects and their locations.
ghost use Rattle.linked_laws.specs.location_laws.object_laws.Once.{ObjectsOnce, OfOneObject};

/// No two objects of a program have one key.
pub fn objects_once()
    ensures { ObjectsOnce }
{}

/// Each location of a program is one of exactly one object.
pub fn of_one_object()
    ensures { OfOneObject }
{}
