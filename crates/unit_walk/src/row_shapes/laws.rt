//! Laws of rows: this function does nothing, and its contract is the law.
ghost use Rattle.unit_walk.specs.row_shapes.Kept.{RowsKeep};

/// Over senses in which each node of a constant stands in its row, and whose declarators have names that are nodes, each row gives such
/// a sense (C11 6.5 to 6.9), where that is known of an expression's and an initialiser's trees, and of a declarator's name.
pub fn rows_keep()
    ensures { RowsKeep }
{}
