//! The law: a function that does nothing, whose contract it is.
ghost use Rattle.parsed_tree_laws.specs.reading_laws.Reading.{OneTree};

/// A text has one list of tokens, one tree as unit of a number, and one source (C11 6.4, 6.9): whoever reads it, the tree has the same
/// nodes, the same root and the same number, and rows see the same.
pub fn one_tree()
    ensures { OneTree }
{}
