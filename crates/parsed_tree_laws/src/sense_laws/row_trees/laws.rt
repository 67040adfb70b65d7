//! Laws of trees whose constants can be computed: these functions do nothing, and their contracts are the laws.
ghost use Rattle.parsed_tree_laws.specs.sense_laws.row_trees.Laws.{RowsKept, ValuesKept};

/// The value of a tree in which each node of a constant stands in its row (C11 6.3.2.1) is such a tree, and so is what an operator
/// makes of two such values.
pub fn values_kept()
    ensures { ValuesKept }
{}

/// The rows of expressions (C11 6.5), over senses in which each node of a constant stands in its row, give such a sense.
pub fn rows_kept()
    ensures { RowsKept }
{}
