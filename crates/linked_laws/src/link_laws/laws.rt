//! What each linked program keeps (C11 6.9p5, 5.1.2.2.1).
ghost use Rattle.linked_laws.specs.link_laws.Whole.{LinkedOnce, LinkedMain};

/// No two objects or functions of external linkage of a linked program have one name.
pub fn linked_once()
    ensures { LinkedOnce }
{}

/// A linked program has `main`: a function with a body, of external linkage and one of its types.
pub fn linked_main()
    ensures { LinkedMain }
{}
