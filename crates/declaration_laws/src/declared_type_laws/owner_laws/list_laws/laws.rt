//! The law: a function that does nothing, whose contract it is.
ghost use Rattle.declaration_laws.specs.declared_type_laws.owner_laws.list_laws.Lists.{ListsBuilt};

/// In a unit that is built of a text the lists of blocks and of `for` statements hold automatic objects of the function in whose body they
/// stand, and none that a compound literal makes (C11 6.2.4, 6.8.2, 6.8.5.3).
pub fn lists_built()
    ensures { ListsBuilt }
{}
