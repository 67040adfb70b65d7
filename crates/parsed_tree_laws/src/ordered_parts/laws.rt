//! The law: a function that does nothing, whose contract it is.
ghost use Rattle.parsed_tree_laws.specs.ordered_parts.Ordered.{PartsFollow};

/// In the tree of a unit that is read all that stands beneath a part of a node comes behind the parts that stand before that one.
pub fn parts_follow()
    ensures { PartsFollow }
{}
