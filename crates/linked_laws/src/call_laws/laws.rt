//! What stands in the calls of a linked program (C11 6.5.2.2).
ghost use Rattle.linked_laws.specs.call_laws.Values.{LinkedCalls};

/// In a program that is linked from valid units what a call calls and its arguments are values.
pub fn linked_calls()
    ensures { LinkedCalls }
{}
