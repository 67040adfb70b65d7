//! The law: a function that does nothing, whose contract it is.
ghost use Rattle.valid_unit_laws.specs.object_initialiser_laws.listing_blocks.Listing.{ObjectsAreListed};

/// In a text that is read whose rows all fit, the block or `for` statement in which an automatic object is declared lists it
/// (C11 6.2.4, 6.8.2, 6.8.5).
pub fn objects_are_listed()
    ensures { ObjectsAreListed }
{}
