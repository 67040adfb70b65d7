//! The laws: functions that do nothing, whose contracts they are.
ghost use Rattle.core_node_laws.specs.count_laws.single_nodes.Single.{TextsOnce, CallsOnce, LiteralsOnce};

/// No two string nodes of a unit that is made of a parsed tree's senses have one place (C11 6.4.5).
pub fn texts_once()
    ensures { TextsOnce }
{}

/// No two calls of such a unit have one place (C11 6.5.2.2).
pub fn calls_once()
    ensures { CallsOnce }
{}

/// One node alone makes the object of a compound literal (C11 6.5.2.5).
pub fn literals_once()
    ensures { LiteralsOnce }
{}
