//! That the objects of compound literals have no linkage.
ghost use Rattle.core_node_laws.specs.built_unit_laws.unlinked_laws.Unlinked.{LiteralsUnlinked};

/// The object of a compound literal has no linkage (C11 6.2.2p6, 6.5.2.5): it is known by its parenthesis, which declares no name.
pub fn literals_unlinked()
    ensures { LiteralsUnlinked }
{}
