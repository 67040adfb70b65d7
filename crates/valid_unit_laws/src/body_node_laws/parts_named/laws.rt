//! What the parts of a unit name is declared.
ghost use Rattle.valid_unit_laws.specs.body_node_laws.parts_named.Named.{PartsApart, PartsKnown, PartsOwned};

/// Where a parsed unit's rows all fit, no two of what is declared at names and at compound literals among its nodes, which are made anew,
/// have one leaf: names differ (C11 6.2.2), a literal's parenthesis is no name, and one literal alone of a parenthesis stands in a body
/// (6.5.2.5).
pub fn parts_apart()
    ensures { PartsApart }
{}

/// Where in the trees of bodies each name without linkage is one that declares something, and what initialises something without linkage is
/// of such a name, or of a compound literal in a body, names are whole: also each entity that a node names, lists or initialises is
/// declared (C11 6.2.1, 6.2.2, 6.7.9, 6.8.2).
pub fn parts_known()
    ensures { PartsKnown }
{}

/// The function that owns one of what is declared there is declared there too (C11 6.2.4, 6.9.1).
pub fn parts_owned()
    ensures { PartsOwned }
{}
