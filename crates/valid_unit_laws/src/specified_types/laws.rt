//! The law: a function that does nothing, whose contract it is.
ghost use Rattle.valid_unit_laws.specs.specified_types.Specified.{TypesSpecified};

/// In a table that has the type of each tag of a source, with the keyword of its first specifier, and no tag that the source hasn't, each
/// structure or union is that of a specifier: no tag stands in a table with both keywords (C11 6.7.2.3).
pub fn types_specified()
    ensures { TypesSpecified }
{}
