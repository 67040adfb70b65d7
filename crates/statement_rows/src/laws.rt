//! Laws of statements whose constants can be computed: this function does nothing, and its contract is the law.
ghost use Rattle.statement_rows.specs.Kept.{RowsKept};

/// The rows of statements, blocks and declarations (C11 6.7, 6.8), over senses in which each node of a constant stands in its row,
/// give such a sense.
pub fn rows_kept()
    ensures { RowsKept }
{}
