//! Laws of worlds that grow: these functions do nothing, and their contracts are the laws.
ghost use Rattle.unit_worlds.specs.Laws.{KnownOn, SensedOn};

/// A unit that knows the world at a node, and has grown by what that node completes, knows the world at the next one.
pub fn known_on()
    ensures { KnownOn }
{}

/// What is made of the next node, where its row fits, is the sense of one node more.
pub fn sensed_on()
    ensures { SensedOn }
{}
