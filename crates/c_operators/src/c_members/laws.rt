//! What ways to members are, and how the rows of members ask of types alone.
ghost use Rattle.c_operators.specs.c_members.Laws.{StepsAskTypes};
ghost use Rattle.c_operators.specs.c_members.Ways.{WaysAreWays, WaysAreFound, TableWaysAreFound};

/// What the search by name finds is a way: the position of a member of that name, or of an unnamed member before a way from its type.
pub fn ways_are_ways()
    ensures { WaysAreWays }
{}

/// Where there is a way of no more levels than one and the tags that there are, one is found.
pub fn ways_are_found()
    ensures { WaysAreFound }
{}

/// A tag is completed after the tags of its members, so in the world of a table no way has more levels than that, and one is found
/// wherever there is a way.
pub fn table_ways_are_found()
    ensures { TableWaysAreFound }
{}

/// One step to a member is refused exactly where `member_refusal` gives a kind.
pub fn steps_ask_types()
    ensures { StepsAskTypes }
{}
