//! That what is initialised is an object, and that a compound literal's object is initialised by the literal's own list.
ghost use Rattle.valid_unit_laws.specs.object_initialiser_laws.initialised_objects.Initialised.{LiteralsOwn, InitialsAreObjects};

/// The one part of a compound literal that stands in a body is the initialiser of its own object, and no function has its type (C11
/// 6.5.2.5), where names have the types of their entities.
pub fn literals_own()
    ensures { LiteralsOwn }
{}

/// The entity of a name that has an initialiser has no function's type (C11 6.7.9p3), where names have the types of their entities.
pub fn initials_are_objects()
    ensures { InitialsAreObjects }
{}
