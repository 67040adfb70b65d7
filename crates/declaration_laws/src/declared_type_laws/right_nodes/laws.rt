//! The law: a function that does nothing, whose contract it is.
ghost use Rattle.declaration_laws.specs.declared_type_laws.right_nodes.Once.{RightNodesOnce};

/// In a unit that is right for a parsed tree no two strings and no two calls have one place, and one node alone makes the object of a
/// compound literal (C11 6.4.5, 6.5.2.2, 6.5.2.5).
pub fn right_nodes_once()
    ensures { RightNodesOnce }
{}
