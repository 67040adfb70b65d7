//! The law: a function that does nothing, whose contract it is.
ghost use Rattle.declaration_laws.specs.declared_type_laws.owner_laws.left_laws.Lefts.{UnitsLefts};

/// In the tree of a unit that is read what stands to the left of an index, a call, a member or a counting operator is a part of the node
/// that this operator is a part of (C11 6.5.2).
pub fn lefts_stand()
    ensures { UnitsLefts }
{}
