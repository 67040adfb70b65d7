//! The law: a function that does nothing, whose contract it is.
ghost use Rattle.valid_unit_laws.specs.object_initialiser_laws.owned_initialisers.Owned.{OwnersInitialise};

/// In a unit that is built of a text the initialiser of an automatic object, and that of a compound literal within a function
/// (C11 6.2.4, 6.5.2.5, 6.7.9), stands in the body of the function that owns it.
pub fn initialisers_owned()
    ensures { OwnersInitialise }
{}
