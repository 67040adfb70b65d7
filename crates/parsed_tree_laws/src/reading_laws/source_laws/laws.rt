//! The laws: these functions do nothing, and their contracts are the laws.
ghost use Rattle.parsed_tree_laws.specs.reading_laws.source_laws.Bound.{BoundNamesStand};
ghost use Rattle.parsed_tree_laws.specs.reading_laws.source_laws.Reading.{OneReading};
ghost use Rattle.parsed_tree_laws.specs.reading_laws.source_laws.Spelled.{NamesAreSpelled};

/// A source has one reading: its nodes have one list of senses, one first node at most has a row that doesn't fit, with one kind and one
/// named node, and a source with a right unit has none (C11 6.5 to 6.9).
pub fn one_reading()
    ensures { OneReading }
{}

/// Where a text is cut into tokens, each name is spelled in ASCII (C11 6.4.2.1, without extended characters).
pub fn names_are_spelled()
    ensures { NamesAreSpelled }
{}

/// In a tree whose parts stand before their nodes each declaration that name resolution finds is made at a node, and each use means one
/// (C11 6.2.1, 6.2.3).
pub fn bound_names_stand()
    ensures { BoundNamesStand }
{}
