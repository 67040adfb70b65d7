//! The law: a function that does nothing, whose contract it is.
ghost use Rattle.parsed_tree_laws.specs.nesting_laws.Nested.{UnitsNest};

/// In the tree of a unit that is read (C11 6.8, 6.9) external declarations stand below its root alone, which stands below nothing;
/// the rest of a declaration stands below it, blocks below external declarations and statements, and declarations and statements
/// below blocks and statements.
pub fn units_nest()
    ensures { UnitsNest }
{}
