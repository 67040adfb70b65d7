//! The law: a function that does nothing, whose contract it is.
ghost use Rattle.valid_unit_laws.specs.object_initialiser_laws.all_listed.Listed.{UnitsList};

/// In a unit that is built of a text each automatic object that no compound literal makes is listed once, by a block or a `for` statement
/// in its owner's body, under which its names and its initialiser stand (C11 6.2.1, 6.2.4).
pub fn units_list()
    ensures { UnitsList }
{}
