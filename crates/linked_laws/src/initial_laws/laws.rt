//! What the initialisers of a linked program hold (C11 6.7.9).
ghost use Rattle.linked_laws.specs.initial_laws.Initials.{LinkedInitials};

/// In a program that is linked from valid units each value of an initialiser has the type at its path in the entity's type, or it is of a
/// function's type or an array's without a length, which has no nodes.
pub fn linked_initials()
    ensures { LinkedInitials }
{}
