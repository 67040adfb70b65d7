//! The law: a function that does nothing, whose contract it is.
ghost use Rattle.declaration_laws.specs.function_laws.case_laws.Cases.{CasesDiffer};

/// In a unit that is built from a text that is cut into tokens and read, the cases of one switch differ, and one of them at most is
/// `default` (C11 6.8.4.2), where nodes stand in their rows, bodies are known, and the senses of the tree are sound.
pub fn cases_differ()
    ensures { CasesDiffer }
{}
