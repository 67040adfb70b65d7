//! The law: a function that does nothing, whose contract it is.
ghost use Rattle.valid_unit_laws.specs.object_initialiser_laws.owners_known.Known.{OwnersKnown};

/// In a unit that is built of a text the names and compound literals of locals stand in the body of the function that owns them, and the
/// lists of blocks and of `for` statements hold automatic objects of the function around (C11 6.2.1, 6.2.4, 6.8.2).
pub fn owners_known()
    ensures { OwnersKnown }
{}
