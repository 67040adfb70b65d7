//! The law: a function that does nothing, whose contract it is.
ghost use Rattle.declaration_laws.specs.declared_type_laws.owner_laws.around_runs.Around.{InitialisersStand};

/// In a unit that is built of a text the initialiser of an automatic object (C11 6.8.2) stands in the tree of the block of the definition
/// around its name, and under each node that stands by that block there is its node.
pub fn initialisers_stand()
    ensures { InitialisersStand }
{}
