//! Of which unit the nodes and entities of a unit are.
ghost use Rattle.parsed_tree_laws.specs.reading_laws.numbered_laws.Numbered.{NumberedRight};

/// What is right for a tree has the tree's unit in each place of its nodes and entities (C11 5.1.1.2).
pub fn numbered_right()
    ensures { NumberedRight }
{}
