//! Laws of statements: these functions do nothing, and their contracts are the laws.
ghost use Rattle.parsed_tree_laws.specs.sense_laws.statement_laws.Parsed.{StatementsParsed};

/// In the tree of a parsed unit a statement begins with a token, an expression or a block, and in a block stand tokens,
/// declarations, static assertions and statements alone (C11 6.8, 6.8.2).
pub fn statements_parsed()
    ensures { StatementsParsed }
{}
