//! That the type of a declared object has a size.
ghost use Rattle.valid_unit_laws.specs.object_size_laws.object_sizes.Sized.{ObjectsSized};

/// In a unit that is built of a text, the type that a declaration gives an object (C11 6.7p7, 6.9.2) has a size and a number of nodes,
/// where an array without a length, which has linkage then, counts as one of one element; or it is a structure or union that is complete
/// at the unit's end; or the object is only declared, by `extern`, and its type stays open.
pub fn objects_sized()
    ensures { ObjectsSized }
{}
