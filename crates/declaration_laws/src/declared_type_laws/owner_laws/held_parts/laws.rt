//! The law: a function that does nothing, whose contract it is.
ghost use Rattle.declaration_laws.specs.declared_type_laws.owner_laws.held_parts.Held.{UnitsHoldParts};

/// In a unit that is read (C11 6.8) all that stands in the tree of a part of a block or of a statement, a statement, a block or the
/// initialisers that a declaration runs, stands in the tree of that block or statement.
pub fn parts_held()
    ensures { UnitsHoldParts }
{}
