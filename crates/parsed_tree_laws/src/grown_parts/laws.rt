//! That each node's parts are what the grammar's row brings.
ghost use Rattle.parsed_tree_laws.specs.grown_parts.Parts.{UnitsBring};

/// In a unit that is read (C11 Annex A.2), the productions of each node's parts are, in order, what the items of its production's row
/// bring: a token a leaf, a production with a node of its own that node, and another one what its own row brings.
pub fn units_bring()
    ensures { UnitsBring }
{}
