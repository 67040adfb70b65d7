//! Laws of the rows: these functions do nothing, and their contracts are the laws.
ghost use Rattle.expression_rows.specs.Readable.{BuiltIsWhole};

/// Where a node's constants and strings stand for numbers and bytes, the row that is built is the row of C11 6.5.
pub fn built_is_whole()
    ensures { BuiltIsWhole }
{}
