//! What the nodes and entities of a program are to each other that is linked from valid units (C11 5.1.1.2).
ghost use Rattle.linked_laws.specs.embedded_laws.Trees.{LinkedTrees};

/// In a program that is linked from valid units each node is a child once at most, bodies, owners, locals, literals, labels,
/// returned values and cases stand as in a valid unit, and each entity has the place of its first use.
pub fn linked_trees()
    ensures { LinkedTrees }
{}
