//! Laws of what can be initialised (C11 6.7.9): these functions do nothing, and their contracts are the laws.
ghost use Rattle.unit_walk.specs.filling_laws.Laws.{FillsFirst, FillsOn};

/// Before the first node, where no structure or union is complete, a unit's types say what the world does of what can be initialised.
pub fn fills_first()
    ensures { FillsFirst }
{}

/// A unit whose types say what the world at a node does of what can be initialised, and that has grown by what that node completes,
/// says what the world at the next one does.
pub fn fills_on()
    ensures { FillsOn }
{}
