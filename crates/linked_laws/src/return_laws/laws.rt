//! What the functions of a linked program return (C11 6.8.6.4).
ghost use Rattle.linked_laws.specs.return_laws.Returns.{LinkedReturns};

/// In a program that is linked from valid units a returned value has its function's result type.
pub fn linked_returns()
    ensures { LinkedReturns }
{}
