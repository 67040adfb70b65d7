//! That what no function is around has linkage.
ghost use Rattle.declaration_laws.specs.declared_type_laws.owned_locals.Locals.{FileNamesLinked, LocalsOwned, RightLocalsOwned, RightBodiesLinked};

/// A name that an external declaration declares, and that is no type's, has linkage (C11 6.2.2p3 to p5).
pub fn file_names_linked()
    ensures { FileNamesLinked }
{}

/// In a unit that is built of a text's senses what has no linkage and is no compound literal's object stands in a function that is defined
/// there (C11 6.2.2p6).
pub fn locals_owned()
    ensures { LocalsOwned }
{}

/// So it is in a unit that is right for a text.
pub fn right_locals_owned()
    ensures { RightLocalsOwned }
{}

/// In a unit that is right for a text what is defined as a function has linkage (C11 6.9.1p4, 6.2.2p3, p5).
pub fn right_bodies_linked()
    ensures { RightBodiesLinked }
{}
