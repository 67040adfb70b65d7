//! The law: a function that does nothing, whose contract it is.
ghost use Rattle.refusal_laws.specs.Refusals.{RowsAreBuilt};

/// A row of whatever production (C11 6.5 to 6.9) gives something, or refuses with a kind of its own: none refuses with `NotBuilt`, and none
/// with `VariadicDefinition`. So no text is refused so at a node.
pub fn rows_are_built()
    ensures { RowsAreBuilt }
{}
