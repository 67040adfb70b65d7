//! The law: a function that does nothing, whose contract it is.
ghost use Rattle.valid_unit_laws.specs.body_node_laws.known_names.Known.{NamesKnown};

/// Where a parsed unit's rows all fit, each name without linkage in the trees of bodies is one that is declared in a declaration, or is a
/// parameter of a definition: a parameter of another list is used in that list alone, from which no tree is made (C11 6.2.1p4, 6.2.2,
/// 6.7.6.3).
pub fn names_known()
    ensures { NamesKnown }
{}
