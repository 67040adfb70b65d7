//! The law: a function that does nothing, whose contract it is.
ghost use Rattle.core_node_laws.specs.marked_trees.Marked.{MarkedOnce};

/// Each statement of a block stands once in the block's tree: where one of them alone stands for a label, a goto, a case, a default or a
/// switch of some sort (C11 6.8.1), one node alone under that of the block is of that sort.
pub fn marked_once()
    ensures { MarkedOnce }
{}
