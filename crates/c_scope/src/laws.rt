//! Laws of names: these functions do nothing, and their contracts are the laws.
ghost use Rattle.c_scope.specs.Resolves.{OneAnswer, UsesArePaired};

/// The names of a unit have one answer: what they mean, or their first fault.
pub fn one_answer()
    ensures { OneAnswer }
{}

/// Where the names of a unit are bound, each use of an ordinary name that needs a declaration has its pair: the innermost of the
/// declarations that are known there (C11 6.2.1p4).
pub fn uses_paired()
    ensures { UsesArePaired }
{}
