//! The law: a function that does nothing, whose contract it is.
ghost use Rattle.declaration_laws.specs.definition_laws.block_laws.Blocks.{UnitsBlocksDiffer};

/// Functions of a parsed unit that are defined by one block are one (C11 6.9.1).
pub fn blocks_differ()
    ensures { UnitsBlocksDiffer }
{}
