//! The laws: functions that do nothing, whose contracts they are.
ghost use Rattle.declaration_laws.specs.declared_type_laws.owner_laws.Owners.{OwnersBuilt};

/// In a unit that is built of a text the names of automatic objects and parameters, and compound literals with automatic storage, stand in
/// the body of the function that owns them (C11 6.2.1, 6.2.4).
pub fn owners_built()
    ensures { OwnersBuilt }
{}
