//! Laws that written units are right: these functions do nothing, and their contracts are the laws.
ghost use Rattle.sense_cases.specs.right_cases.Pointed.{PointedRight};
ghost use Rattle.sense_cases.specs.right_cases.Locals.{LocalsRight};
ghost use Rattle.sense_cases.specs.right_cases.Lengths.{LengthsRight};

/// A unit with an object, a pointer and a function that makes one point to the other is what its syntax tree says, as a whole: its types,
/// nodes and entities are right, and it is valid.
pub fn pointed()
    ensures { PointedRight }
{}

/// A unit with a structure, a typedef name in a block, a static local and an initialised automatic object is what its syntax tree says: the
/// structure has its members and its key, the typedef name is no object, and the automatic object is listed where its initialiser runs.
pub fn locals()
    ensures { LocalsRight }
{}

/// A unit whose second declaration of an array has no length is what its syntax tree says: its object has the length that the first one
/// gives it (C11 6.2.7p4), more than its initialiser has values, and both declarations have one type.
pub fn lengths()
    ensures { LengthsRight }
{}
