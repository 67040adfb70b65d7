//! The contents of objects (C11 6.2.4, 6.4.5, 7.22.3).
ghost use Rattle.covering_laws.specs.object_contents.Contents.{CallsMade, ContentsKnown, OutsidePlaced};

/// Each location is one of an object that is made as its key says: an entity of its type, a string literal of its own, what a call
/// allocates of the type of the conversion above the call, a library object as its row says. Such a type is complete.
pub fn contents_known()
    ensures { ContentsKnown }
{}

/// Where a program is entered from outside, what lies there has a location, and is memory without a type.
pub fn outside_placed()
    ensures { OutsidePlaced }
{}

/// A call of an allocating function by its name has an object of its own.
pub fn calls_made()
    ensures { CallsMade }
{}
