//! The law: a function that does nothing, whose contract it is.
ghost use Rattle.declaration_laws.specs.declared_type_laws.owner_laws.held_runs.Runs.{RunsHeld};

/// In a unit that is built of a text what a declaration runs within a definition (C11 6.8.2) stands in the tree of the definition's block,
/// and in the unit it is a node under each node that stands by that block; an initialiser is the body of the entity that it initialises.
pub fn runs_held()
    ensures { RunsHeld }
{}
