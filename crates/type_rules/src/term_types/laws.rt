//! The law: a function that does nothing, whose contract it is.
ghost use Rattle.type_rules.specs.term_types.Grown.{TypesGrown};

/// The type of a number of a table is that of its term, over the types of the same table: what a term names comes before it.
pub fn types_grown()
    ensures { TypesGrown }
{}
