//! The law: a function that does nothing, whose contract it is.
ghost use Rattle.valid_unit_laws.specs.object_initialiser_laws.listed_once.Once.{ListsOnce};

/// In a unit that is made of the senses of a text that is read, at most one block or `for` statement lists an object, and once
/// (C11 6.2.4, 6.8.2, 6.8.5).
pub fn lists_once()
    ensures { ListsOnce }
{}
