//! The law: a function that does nothing, whose contract it is.
ghost use Rattle.core_node_laws.specs.built_unit_laws.lasting_literals.Lasting.{LiteralsLast};

/// In a unit that is made of a tree's senses the object of a compound literal lives for the whole run or with its block (C11 6.5.2.5p5).
pub fn literals_last()
    ensures { LiteralsLast }
{}
