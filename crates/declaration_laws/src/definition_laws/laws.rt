//! The laws: functions that do nothing, whose contracts they are.
ghost use Rattle.declaration_laws.specs.definition_laws.Definitions.{BlockPartsAreDefined, DefinitionsAreFound, LocalsAreDefined};

/// In the tree of a unit that is read, each block, each statement and each declaration within a block stands in an external declaration
/// that has a block (C11 6.8.2, 6.9.1).
pub fn block_parts_are_defined()
    ensures { BlockPartsAreDefined }
{}

/// In a unit that is cut into tokens and read, what stands in the definition of a function has a nearest one above it.
pub fn definitions_are_found()
    ensures { DefinitionsAreFound }
{}

/// So has the leaf of each name that a declaration within a block declares, and that of each parameter of a definition.
pub fn locals_are_defined()
    ensures { LocalsAreDefined }
{}
