//! The law: a function that does nothing, whose contract it is.
ghost use Rattle.parsed_tree_laws.specs.statement_shapes.Shaped.{StatementsShaped};

/// In the tree of a unit that is read (C11 6.8) a statement has as many statements and blocks as parts, at most, as its first part says:
/// two behind `if`; one behind a name, `case`, `default`, `switch`, `while`, `do` and `for`, or as a block; none as an expression, `;`,
/// `goto`,
/// `continue`, `break` and `return`. A statement that a leaf begins has no block as a part, and in a `switch` the expression comes before
/// the statement.
pub fn statements_shaped()
    ensures { StatementsShaped }
{}
