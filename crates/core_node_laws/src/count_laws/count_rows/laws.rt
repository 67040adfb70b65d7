//! The law: a function that does nothing, whose contract it is.
ghost use Rattle.core_node_laws.specs.count_laws.count_rows.Covers.{RowsCount};

/// The row of each production uses the sense of each operand once: the nodes of what it gives that pass a test are no more than
/// those of the senses that it uses and those that it makes itself.
pub fn rows_count()
    ensures { RowsCount }
{}
