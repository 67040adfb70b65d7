//! Laws of parsed trees: these functions do nothing, and their contracts are the laws.
ghost use Rattle.parsed_tree_laws.specs.sense_laws.parsed_laws.Parsed.{CutConstantsFit, ParsedInOrder};

/// In the tree of a parsed unit each part of a node stands before it.
pub fn children_first()
    ensures { ParsedInOrder }
{}

/// Where a text is cut into tokens, each integer constant has a value below 2^64 (C11 6.4.4.1).
pub fn constants_fit()
    ensures { CutConstantsFit }
{}
