//! That the objects of compound literals have the types that their lists give them.
ghost use Rattle.core_node_laws.specs.built_unit_laws.literal_types.Literals.{LiteralsFit};

/// At the list of a compound literal (C11 6.5.2.5), its object has the type that is written, with the length that the list gives it, and
/// each value goes to a part of it.
pub fn literals_fit()
    ensures { LiteralsFit }
{}
