//! The law: a function that does nothing, whose contract it is.
ghost use Rattle.valid_unit_laws.specs.object_initialiser_laws.listed_declarations.Listed.{ListedApart};

/// Two declarations of a text that is read that list one automatic object are one (C11 6.2.4, 6.7).
pub fn listed_apart()
    ensures { ListedApart }
{}
