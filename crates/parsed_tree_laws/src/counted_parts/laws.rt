//! The law: a function that does nothing, whose contract it is.
ghost use Rattle.parsed_tree_laws.specs.counted_parts.Counted.{PartsAreCounted};

/// In the tree of a unit that is read (C11 6.8, 6.9) an external declaration has one declarator of its own at most, no field and no
/// declarator of another form, and a block or the rest of a declaration, but not both; a statement has two statements as parts at most,
/// and one at most where a name, `case`, `default`,
/// `switch`, `while`, `do` or `for` begins it.
pub fn parts_are_counted()
    ensures { PartsAreCounted }
{}
